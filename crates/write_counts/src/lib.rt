//! What passes the numbers that a footer has fields for, as a file is written group after group. Definitions alone.
#![tactic(auto)]
