//! Tests of the gate and of the perimeter machine, on the diary of `gate_trial` and on the logs and worked histories of `perimeter_trial`.
#![tactic(auto)]

#[cfg(test)]
mod gate;
#[cfg(test)]
mod machine;
