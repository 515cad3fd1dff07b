//! Runs rows of whole runs of `sqrun`, `sqreplay`, `sqmore` and the live servers over memory: words and an input, and the status, the output and the error line
//! that are wanted. What a row may say stands in `case_rows`; a row with `asks` or `calls` has words of `sqrun` alone, and what they ask for.
//! A file whose name begins with `sqreplay` or `sqmore` has rows of that program, one with `sqlive` those of `live`, every other file rows of
//! `sqrun`. What is expected comes from an independent model.
//!
//! Each row of the files `refused` is wrong in one field, and must fail: what the program writes has a line for each.
#![tactic(auto)]

mod asking;
mod live;

use asking::judge_words;
use case_rows::{Row, RowFault, judge_run, run_cases};
use datagram_services::more_run;
use live::judge_live;
use sq_base::{MemSink, MemSource, Status};
use squeue_run::squeue_run;
use std::alloc::Global;
use std::io;
use std::process::ExitCode;
use std::sync::Wait;
use std::thread::Threads;
use trace_replay::replay_run;

/// The status of a run that hands back what was served at another status than 0, or nothing at 0.
const SERVED_OTHERWISE: u8 = 255;

/// Runs `sqrun` on these threads as the row says, or asks what its words ask for.
fn judge_sqrun(
    rt: &(impl Threads + Wait + Sync),
    alloc: Global,
    row: &Row<'_>,
) -> Result<(), RowFault> {
    if row.has("asks") || row.has("calls") {
        return judge_words(alloc, row);
    }
    let program = |alloc: Global, words: &[String], src: &mut MemSource, out: &mut MemSink, err: &mut MemSink| {
        let ran = squeue_run(rt, alloc, words, src, out, err);
        if ran.served.is_some() == (ran.status == Status::Ok) {
            ran.status.code()
        } else {
            SERVED_OTHERWISE
        }
    };
    judge_run(&program, alloc, row)
}

/// Runs `sqreplay` on these threads as the row says.
fn judge_sqreplay(
    rt: &(impl Threads + Sync),
    alloc: Global,
    row: &Row<'_>,
) -> Result<(), RowFault> {
    let program = |alloc: Global, words: &[String], src: &mut MemSource, out: &mut MemSink, err: &mut MemSink| {
        replay_run(rt, alloc, words, src, out, err).code()
    };
    judge_run(&program, alloc, row)
}

/// Runs `sqmore` on these threads as the row says.
fn judge_sqmore(
    rt: &(impl Threads + Wait + Sync),
    alloc: Global,
    row: &Row<'_>,
) -> Result<(), RowFault> {
    let program = |alloc: Global, words: &[String], src: &mut MemSource, out: &mut MemSink, err: &mut MemSink| {
        more_run(rt, alloc, words, src, out, err).code()
    };
    judge_run(&program, alloc, row)
}

/// Runs the program that the file's name begins with.
fn judge(
    rt: &(impl Threads + Wait + Sync),
    alloc: Global,
    file: &str,
    row: &Row<'_>,
) -> Result<(), RowFault> {
    if file.starts_with("sqreplay") {
        judge_sqreplay(rt, alloc, row)
    } else if file.starts_with("sqmore") {
        judge_sqmore(rt, alloc, row)
    } else if file.starts_with("sqlive") {
        judge_live(rt, alloc, row)
    } else {
        judge_sqrun(rt, alloc, row)
    }
}

fn main(rt: HostRuntime) -> io::Result<ExitCode> {
    run_cases(
        &rt,
        &|alloc: Global, file: &str, row: &Row<'_>| judge(&rt, alloc, file, row),
    )
}
