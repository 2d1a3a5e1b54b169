//! What tasks hold.
ghost use Rattle.std.specs.Prelude.{◌≡◌, ◌+◌, ◌*◌, ◌<◌, ◌≤◌, option_map, true, false, IfSome, IsNone, Some};
ghost use Rattle.f11_fcp.specs.Accesses.{no_entries, with_table_entry, with_empty_windows, with_marks, emptied_if, marked_if, is_held_in, any_mode, accesses, with_window};
ghost use Rattle.f11_fcp.specs.Places.{entry_of, access_table_of};
ghost use Rattle.f11_store.specs.Causes.{is_no_write, is_no_writer};
ghost use Rattle.f11_store.specs.Store.{bars};

use crate::table::{Accesses, Held};
use f11_chain::Window;
use f11_store::{FileId, Lun, Mode, Task};

/// Where in the table the task's lun stands.
fn place(task: Task, lun: Lun) -> usize
    ensures value { result ≡ 4 * task + lun }
    ensures bound { result < 32 }
    ensures within { (task < 8) × (lun < 4) }
{
    4 * task.number() as usize + lun.number() as usize
}

/// Whether an access stands against one in this mode.
fn bars(mode: Mode, other: Mode) -> bool
    ensures { result ≡ bars mode other }
{
    match (mode, other) {
        (Mode::Read, _) | (Mode::Locked, Mode::Read | Mode::Locked) | (Mode::Write, Mode::Read) => {
            false
        }
        (Mode::Locked, Mode::Write) | (Mode::Write, Mode::Locked | Mode::Write) => true,
    }
}

/// What is held, if it is an access to the file then to one that is marked for delete.
fn marked(held: Option<Held>, file: FileId) -> Option<Held>
    requires late { 6 ≤ file.number }
    ensures { option_map entry_of result ≡ option_map (marked_if file) (option_map entry_of held) }
{
    match held {
        Some(held) if held.file.number == file.number && held.file.sequence == file.sequence => {
            Some(Held {
                file: held.file,
                mode: held.mode,
                marked: true,
                window: held.window,
            })
        }
        held => held,
    }
}

/// What is held, with this window.
fn with_window(held: Held, window: Window) -> Held
    ensures { entry_of result ≡ with_window window (entry_of held) }
{
    Held {
        file: held.file,
        mode: held.mode,
        marked: held.marked,
        window,
    }
}

/// What is held, if it is an access to the file then with a window that holds no run.
fn emptied(held: Option<Held>, file: FileId) -> Option<Held>
    ensures { option_map entry_of result ≡ option_map (emptied_if file) (option_map entry_of held) }
{
    match held {
        Some(held) if held.file.number == file.number && held.file.sequence == file.sequence => {
            Some(with_window(held, Window::empty()))
        }
        held => held,
    }
}

impl Accesses {
    /// No access.
    pub(crate) fn none() -> Accesses
        ensures { access_table_of result ≡ no_entries }
    {
        Accesses { places: [None; 32] }
    }

    /// What the task holds by the lun.
    pub(crate) fn held(&self, task: Task, lun: Lun) -> Option<Held>
        ensures value { option_map entry_of result ≡ access_table_of self.now task lun }
        ensures within { (task < 8) × (lun < 4) }
    {
        self.places[place(task, lun)]
    }

    /// The access to write that the task holds by the lun.
    pub(crate) fn writer(&self, task: Task, lun: Lun) -> Option<Held>
        ensures some { IfSome result (λ h. (access_table_of self.now task lun ≡ Some (entry_of h))
            × (is_no_write h.mode ≡ false)) }
        ensures within { (task < 8) × (lun < 4) }
        ensures none { IsNone result → is_no_writer (accesses (access_table_of self.now) task lun) ≡ true }
    {
        match self.held(task, lun) {
            Some(held) if matches!(held.mode, Mode::Write) => Some(held),
            _ => None,
        }
    }

    /// The task holds this by the lun.
    pub(crate) fn set(&mut self, task: Task, lun: Lun, held: Option<Held>)
        ensures value { access_table_of self.new ≡ with_table_entry (access_table_of self.old) task lun
            (option_map entry_of held) }
        ensures within { (task < 8) × (lun < 4) }
    {
        self.places[place(task, lun)] = held;
    }

    /// What the task holds by the lun is this, with this window.
    pub(crate) fn keep(&mut self, task: Task, lun: Lun, held: Held, window: Window)
        ensures value { access_table_of self.new ≡ with_table_entry (access_table_of self.old) task lun
            (Some (with_window window (entry_of held))) }
        ensures within { (task < 8) × (lun < 4) }
    {
        self.set(task, lun, Some(with_window(held, window)));
    }

    /// Whether some access to the file stands against one in this mode.
    pub(crate) fn is_barred(&self, mode: Mode, file: FileId) -> bool
        ensures { result ≡ is_held_in (bars mode) (access_table_of self.now) file }
    {
        for held in &self.places {
            if let Some(held) = held {
                if held.file.number == file.number
                    && held.file.sequence == file.sequence
                    && bars(mode, held.mode)
                {
                    return true;
                }
            }
        }
        false
    }

    /// Whether some access to the file stands.
    pub(crate) fn is_accessed(&self, file: FileId) -> bool
        ensures { result ≡ is_held_in any_mode (access_table_of self.now) file }
    {
        for held in &self.places {
            if let Some(held) = held {
                if held.file.number == file.number && held.file.sequence == file.sequence {
                    return true;
                }
            }
        }
        false
    }

    /// Each access to the file is to one that is marked for delete.
    pub(crate) fn set_marks(&mut self, file: FileId)
        requires late { 6 ≤ file.number }
        ensures { access_table_of self.new ≡ with_marks file (access_table_of self.old) }
    {
        for i in 0..32 {
            self.places[i] = marked(self.places[i], file);
        }
    }

    /// Each access to the file has a window that holds no run.
    pub(crate) fn empty_windows(&mut self, file: FileId)
        ensures { access_table_of self.new ≡ with_empty_windows file (access_table_of self.old) }
    {
        for i in 0..32 {
            self.places[i] = emptied(self.places[i], file);
        }
    }
}
