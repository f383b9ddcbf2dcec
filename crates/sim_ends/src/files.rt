//! Files of the system.
ghost use Rattle.std.specs.Prelude.{◌≡◌, None, is_some};
ghost use Rattle.sim_ends.specs.OpenFile.{left_of};
ghost use Rattle.sim_ports.specs.Named.{selected_of};

use crate::calls::read_once;
use sim_ports::{Failed, Files};
use std::fs;
use std::rt::Files as FileSystem;

/// Files of the system, of which one is opened by its whole name, blanks included. What is left of it is told where the
/// opened file tells it. A name that can't be opened is a fault, and so is a read that fails.
#[derive(Drop)]
pub struct RealFiles<'a, R: FileSystem> {
    rt: &'a R,
    chosen: Option<String>,
    file: Option<R::File>,
    faults: u64,
}

impl<'a, R: FileSystem> RealFiles<'a, R> {
    /// No file is selected, and there was no fault.
    pub fn new(rt: &'a R) -> Self
        ensures idle { ⟦<RealFiles<'a, R> as Files>⟧.selected result ≡ None }
        ensures faultless { ⟦<RealFiles<'a, R> as Files>⟧.faults result ≡ 0 }
    {
        RealFiles {
            rt,
            chosen: None,
            file: None,
            faults: 0,
        }
    }
}

impl<R: FileSystem> Files for RealFiles<'_, R> {
    ghost content = { λ files name. None };

    ghost left = { λ files. left_of R.File.remaining files.file };

    ghost selected = { λ files. selected_of files.chosen (is_some files.file) };

    ghost faults = { λ files. files.faults };

    ghost is_sound = { λ files. ⊥ };

    fn select(&mut self, name: String) -> Result<(), Failed> {
        let opened = fs::open(self.rt, name.as_str()).ok();
        self.chosen = Some(name);
        self.file = opened;
        if self.file.is_none() {
            self.faults = self.faults.saturating_add(1);
            return Err(Failed);
        }
        Ok(())
    }

    fn read(&mut self, into: &mut [u8]) -> Result<usize, Failed> {
        if into.is_empty() {
            return Ok(0);
        }
        if let Some(file) = &mut self.file
            && let Ok(count) = read_once(file, into)
        {
            return Ok(count);
        }
        self.faults = self.faults.saturating_add(1);
        Err(Failed)
    }
}
