//! Why the cells in the texts of both chips' states stand in one field, each with its place in front, and ascend
//! (`specs/Loose.antt`): a law for each of the fields in front of them, and one for the memory. The laws on the texts of both
//! chips cite it. Nothing here runs.
#![tactic(auto)]
