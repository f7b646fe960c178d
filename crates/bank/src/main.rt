//! A bank of two threads on one database: both move money and count what they moved, and one stores
//! what there is.
#![tactic(auto)]

mod bank;
mod service;

use crate::service::serve;
use slate_connection::SharedStore;
use slate_store::MemoryStore;
use std::process::ExitCode;
use std::sync::Mutex;

fn main(rt: HostRuntime) -> ExitCode {
    let alloc = rt.alloc();
    let objects = Mutex::new(MemoryStore::new(alloc, Vec::new(alloc)));
    let mut first = SharedStore::new(&rt, &objects);
    let mut second = SharedStore::new(&rt, &objects);
    match serve(&rt, alloc, &mut first, &mut second) {
        Ok(total) => {
            let _ = println!(rt; "total {total}");
            ExitCode::from(0)
        }
        Err(error) => {
            let _ = eprintln!(rt; "stopped: {error}");
            ExitCode::from(1)
        }
    }
}
