//! Processes of stack code as a language of `fm_net`: what a body asks for with the ports of its slots, and how it goes
//! on with the reply. There is no code here: `specs/Slots` tells how ports come to slots and leave them, `specs/Frames`
//! what comes into the words of a frame and out of them, `specs/Processes` what a process needs and does
//! (`code_language`).
#![tactic(auto)]
