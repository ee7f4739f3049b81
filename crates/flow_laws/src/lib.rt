//! Why the works that `chip_flow` makes keep the laws of a chip: where a step of the chip lands among the posts of a location's work
//! (`specs/Landing.antt`), and where a return from an interrupt resumes (`specs/Returns.antt`); and the same of the machine that makes
//! the steps alone which keep promises (`specs/KeptSteps.antt`). The laws of both chips cite it. Nothing here runs.
#![tactic(auto)]
