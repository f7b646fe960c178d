//! What is printed.
use anyhow::Error;
use slate_types::SlateDBError;
use std::alloc::Global;
use std::io;
use std::time::Instant;

/// Prints what was done, and how long it took where that is asked for.
#[derive(Drop)]
pub struct Report<'a> {
    rt: &'a HostRuntime,
    is_timed: bool,
}

impl<'a> Report<'a> {
    pub fn new(rt: &'a HostRuntime, is_timed: bool) -> Report<'a> {
        Report { rt, is_timed }
    }

    pub fn alloc(&self) -> Global {
        self.rt.alloc()
    }

    /// When the work starts. Any error of the clock.
    pub fn start(&self) -> io::Result<Instant> {
        Instant::now(self.rt)
    }

    /// Prints what was done under the name, and the nanoseconds since the start. The error of what was not done, and any
    /// of the clock or of standard output.
    pub fn finish(
        &self,
        name: &str,
        done: Result<String, SlateDBError>,
        start: Instant,
    ) -> Result<(), Error> {
        let done = done?;
        let printed = self.print(name, &done, start);
        drop(done);
        printed.map_err(Error::from)
    }

    fn print(&self, name: &str, done: &str, start: Instant) -> io::Result<()> {
        let nanos = start.elapsed(self.rt)?.as_nanos();
        println!(self.rt; "{name}: {done}")?;
        if self.is_timed {
            println!(self.rt; "{name} took {nanos} ns")
        } else {
            Ok(())
        }
    }
}

/// The name of the work on the version, which is 1 or 2.
pub fn name_of(version: u16, first: &'static str, second: &'static str) -> &'static str {
    if version == 1 { first } else { second }
}
