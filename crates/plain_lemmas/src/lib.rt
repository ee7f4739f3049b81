//! What holds of lists, options, tests, orders and remainders, whatever they are about. Proofs of several crates cite it, so it
//! stands here once: membership in lists (`specs/Members.antt`), tests of lists (`specs/AnyOf.antt`), Booleans, options and
//! results (`specs/Cases.antt`), an order that goes part by part (`specs/Orders.antt`), and small numbers (`specs/Small.antt`).
//! Nothing here runs, and no contract speaks of it.
#![tactic(auto)]
