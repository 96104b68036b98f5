//! The counts of what was asked of the system.
ghost use Rattle.std.specs.Prelude.{◌≡◌};
ghost use Rattle.px_realsite.specs.Traffic.{absent, asked, given, held, more_by, no_traffic, synced_file, synced_folder, synced_names};

use px_site::FileName;

/// What a site has asked of the system since it was made. Each count stands still at the greatest u64.
///
/// The bytes are those of which the system answered that it took or gave them.
#[derive(Clone, Copy, Debug, PartialEq, Eq)]
pub struct Traffic {
    /// How many calls were made, also those that answered an error. Opening a file is one, and reading the names of a
    /// folder is one; closing a file isn't counted.
    pub calls: u64,
    /// How many of them were answered that the file, or the folder, isn't there.
    pub absent: u64,
    /// How many reads were answered that the file ends there.
    pub ends: u64,
    /// How many bytes were read from files.
    pub bytes_read: u64,
    /// How many bytes were written to files.
    pub bytes_written: u64,
    /// How many bytes were written to standard output.
    pub bytes_told: u64,
    /// Whether the system gave the lock on the folder. It is kept to the site's end.
    pub is_held: bool,
    /// What was asked to be made durable.
    pub syncs: Syncs,
}

/// What a site has asked the system to make durable.
#[derive(Clone, Copy, Debug, PartialEq, Eq)]
pub struct Syncs {
    /// How many syncs of files were answered as done.
    pub files: u64,
    /// The file of the last of them.
    pub last: Option<FileName>,
    /// Whether a sync of the folder was answered as done since a name was last made or removed in it. At the start it isn't
    /// known whether an earlier process left a name that isn't durable, so this is false.
    pub are_names_durable: bool,
    /// Whether a sync of the folder above was answered as done since this one was made; false at the start too.
    pub is_folder_durable: bool,
    /// Whether a sync was answered as failed.
    pub has_failed: bool,
}

impl Traffic {
    /// Nothing was asked yet.
    pub(super) fn new() -> Traffic
        ensures { result ≡ no_traffic }
    {
        Traffic {
            calls: 0,
            absent: 0,
            ends: 0,
            bytes_read: 0,
            bytes_written: 0,
            bytes_told: 0,
            is_held: false,
            syncs: Syncs {
                files: 0,
                last: None,
                are_names_durable: false,
                is_folder_durable: false,
                has_failed: false,
            },
        }
    }

    /// Counts a call.
    pub(super) fn count_call(&mut self)
        ensures { self.new ≡ asked self.old }
    {
        self.calls = self.calls.saturating_add(1);
    }

    /// Counts that what was asked for isn't there.
    pub(super) fn count_absent(&mut self)
        ensures { self.new ≡ absent self.old }
    {
        self.absent = self.absent.saturating_add(1);
    }

    /// Counts what a read was answered: bytes, or none at the end of the file.
    pub(super) fn count_read(&mut self, bytes: usize)
        ensures { self.new ≡ given bytes self.old }
    {
        self.bytes_read = self.bytes_read.saturating_add(bytes as u64);
        if bytes == 0 {
            self.ends = self.ends.saturating_add(1);
        }
    }

    /// Counts bytes that were written to a file.
    pub(super) fn count_written(&mut self, bytes: usize)
        ensures { self.new ≡ record self.old { bytes_written = more_by bytes self.old.bytes_written } }
    {
        self.bytes_written = self.bytes_written.saturating_add(bytes as u64);
    }

    /// Counts bytes that were told.
    pub(super) fn count_told(&mut self, bytes: usize)
        ensures { self.new ≡ record self.old { bytes_told = more_by bytes self.old.bytes_told } }
    {
        self.bytes_told = self.bytes_told.saturating_add(bytes as u64);
    }

    /// Notes that the lock was given.
    pub(super) fn note_lock(&mut self)
        ensures { self.new ≡ held self.old }
    {
        self.is_held = true;
    }
}

impl Syncs {
    /// Notes what a sync of a file was answered.
    pub(super) fn note_file(&mut self, file: FileName, is_done: bool)
        ensures { self.new ≡ synced_file file is_done self.old }
    {
        if is_done {
            self.files = self.files.saturating_add(1);
            self.last = Some(file);
        } else {
            self.has_failed = true;
        }
    }

    /// Notes what a sync of the names in the folder was answered.
    pub(super) fn note_names(&mut self, is_done: bool)
        ensures { self.new ≡ synced_names is_done self.old }
    {
        if is_done {
            self.are_names_durable = true;
        } else {
            self.has_failed = true;
        }
    }

    /// Notes what a sync of the folder above was answered.
    pub(super) fn note_folder(&mut self, is_done: bool)
        ensures { self.new ≡ synced_folder is_done self.old }
    {
        if is_done {
            self.is_folder_durable = true;
        } else {
            self.has_failed = true;
        }
    }
}
