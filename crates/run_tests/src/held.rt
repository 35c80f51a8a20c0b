//! Tests that hold a session's call in the middle of its attempt while another session commits, on two threads over one table.
mod alone;
mod heard;
mod hold;
mod lanes;
mod lazy;
mod locking;
mod program;
mod scene;
