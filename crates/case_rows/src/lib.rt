//! Rows of cases: files that a person reads and edits, and what a program does that runs them.
//!
//! A file of rows is made of lines. A line that begins with `#` is a comment, and an empty line says nothing.
//! `row NAME` begins a row, and `FIELD` or `FIELD TEXT` a field of it, whose first line is TEXT. A line that is indented by four blanks is a
//! further line of its field, without these blanks. `part NAME` begins lines that several rows share: where a line of a field is
//! `@NAME`, they stand there.
//!
//!     part session
//!         0 S 100 0 4096
//!     row a session with checksums
//!     words --verify
//!     input
//!         pcap
//!         @session
//!     out
//!         report 1
//!
//! Files and rows: `rows` has a row and its fields, `reading` reads a file, `fault` says why a row fails, `comparing` has what is wanted beside
//! what came, and `running` runs files of rows.
//!
//! Words of a line: `words` has numbers and flags, `bytes` what hexadecimal spells, `captures` the packets of an input. What a line can't mean
//! is an error (`wrong`), which `told` makes a fault, and never a value: a row whose text isn't understood fails.
//!
//! Rows of whole runs: `program` is what is run, `given` what a row gives it, `wanted` what it is to write, and `judging` does what a row says:
//!
//! | Field | What it says |
//! |---|---|
//! | `words LINE` | the words, between blanks, or between bars where the line has any |
//! | `input` | the input, in lines as [`bytes_of`] reads them |
//! | `text` | lines that stand before the input |
//! | `change N TEXT` .. | the Nth of these lines, counted from 0, is another; with no TEXT it is left out, and `\n` in TEXT ends a line |
//! | `reads N`, `writes N` | how many bytes a read gives and a write takes at most; else 65,536 |
//! | `failing_reads N ..`, `failing_writes N ..`, `failing_tellings N ..` | which reads, writes and writes to the error line fail, counted from 0 |
//! | `status N`, `out`, `err` | what is wanted: a status, else 0, and lines; an `or` between lines of `out` parts outputs of which one is wanted |
//! | `out_bytes N` | so many bytes of `out` alone are wanted |
//! | `begins`, `ends` | in place of `out`: lines at both ends of the output |
//! | `among` | in place of `out`: lines of the output, each behind how often it stands there |
//! | `marks LEAST MOST` | in place of `out`: how many lines of marks stand behind the lines `squeue Q marks N`, which tell as many |
//! | `sum LENGTH CHECK` | in place of `out`: its length, and in hexadecimal its check value: each byte added at the multiplier of the 64-bit FNV hash, from 0 |
//! | `each` | words, line by line, in place of `words`: a run with each; `none` stands for no words |
//! | `fronts FIRST END` | a run over each front of the input of FIRST bytes up to END - 1 |
//! | `each_read N`, `each_write N` | N runs: in the kth the read or write k fails; of the output the bytes of the k writes before are wanted |
#![tactic(auto)]

mod bytes;
mod captures;
mod comparing;
mod fault;
mod given;
mod judging;
mod program;
mod reading;
mod rows;
mod running;
mod told;
mod wanted;
mod words;
mod wrong;

pub use bytes::{add_bytes, add_text, spelled};
pub use captures::bytes_of;
pub use comparing::{expect_bytes, expect_lines, expect_number, expect_text};
pub use fault::RowFault;
pub use judging::judge_run;
pub use reading::{BadLine, Broken, rows_of};
pub use rows::{Field, Row, words_of};
pub use running::run_cases;
pub use told::told_at;
pub use words::{RowWords, add_flags, flags_of};
pub use wrong::Wrong;
