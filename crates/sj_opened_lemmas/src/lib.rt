//! Laws of the core on worlds with sessions that are opened at run time: the world read as if each
//! Open had been delivered.
#![tactic(auto)]
