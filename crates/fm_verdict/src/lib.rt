//! The statements of a source, the least rule that it breaks, and the program of one that breaks none. There is no code
//! here: `specs/Verdict` tells which statements a source has and what breaks a rule in it, `specs/Program` which
//! program is its own. The checkers that find these stand beside it, and `fm_front` above both.
#![tactic(auto)]
