//! The crates as a library. What a connection is given and what it sends then stands as rows of `cases_library`.

mod answering;
mod library;
mod resending;
