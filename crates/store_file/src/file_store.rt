//! A store over a file.

ghost use Rattle.std.specs.Prelude.{◌≡◌, ◌≢◌, ℕ, ◌-◌, ◌^◌, ◌≤◌, true, false, length, None, Some, is_some, is_ok, if◌then◌else◌, slice_set, Ok, Err, IfOk, IfSome, OnOk, OnErr};
ghost use Rattle.pager_model.specs.Bounds.{space_pages};
ghost use Rattle.pager_model.specs.Regions.{in_range};
ghost use Rattle.pager_model.specs.SpaceStates.{Rises};
ghost use Rattle.pager_model.specs.Stored.{copy_at, DropsCopies, SameCopies, SetsCopy, keeps_at};
ghost use Rattle.store_core.specs.CopiedWords.{copied_words};
ghost use Rattle.store_core.specs.MemoryState.{one_more};
ghost use Rattle.store_file.specs.FileState.{fresh, is_copied, is_in_file, no_pages, MovesPage, untold};

use crate::page_bytes::{put_words, read_page, take_words, write_page};
use crate::page_file::{PAGE_BYTES, PageFile};
use crate::page_set::PageSet;
use pager_model::{NoMemory, PAGES};
use std::alloc::Global;
use std::fs::{File, OpenOptions};
use std::io;
use std::marker::Model;
use std::os::fd::AsRawFd;
use std::os::unix::fs::FileExt;
use std::path::Path;
use std::rt::Files;
use store_core::{Copied, Store, StoreFailed, WriteRefused};

/// Keeps the copies of a space's pages in a file: that of page p is the 8,192 bytes from byte 8192 * p on, each word's lowest byte first.
///
/// It tells none of its copies. Which pages have one of their own it keeps in memory, so what the file held before it was made is never
/// read, and a write takes no memory. It keeps every page of a space.
#[derive(Drop)]
pub struct FileStore<F> {
    file: PageFile<F>,
    copied: PageSet,
    reads: u64,
    writes: u64,
    faults: u64,
}

impl<F> Model for FileStore<F> {
    ghost use Rattle.std.specs.Prelude.{◌-◌, ◌^◌, ◌≤◌};
    ghost use Rattle.store_file.specs.FileState.{FileState};

    ghost Value = { FileState };

    ghost view = { λ s. record { file = s.file; copied = s.copied; reads = s.reads; writes = s.writes; faults = s.faults } };

    ghost invariant = { λ s. s.faults ≤ 2 ^ 64 - 1 };
}

impl<F: FileExt + Drop> FileStore<F> {
    /// A store over this file, with no copy and no fault so far. Without a file each write fails.
    pub fn over(alloc: Global, file: Option<F>) -> Result<FileStore<F>, NoMemory>
        ensures fresh { IfOk result (λ store. store ≡ fresh (is_some file)) }
    {
        let copied = PageSet::create(alloc)?;
        Ok(FileStore::of(file, copied))
    }

    /// A store over this file whose pages that have a copy are these: none so far.
    fn of(file: Option<F>, copied: PageSet) -> FileStore<F>
        requires { copied ≡ no_pages }
        ensures { result ≡ fresh (is_some file) }
    {
        FileStore {
            file: PageFile::of(file),
            copied,
            reads: 0,
            writes: 0,
            faults: 0,
        }
    }

    /// Whether a read of the page is one of the file.
    fn is_in_file(&self, page: u32) -> bool
        ensures { result ≡ is_in_file self.now page }
    {
        self.file.is_open() && self.copied.has(page)
    }
}

impl FileStore<File> {
    /// A store over the file `space-NUMBER` of a folder, which is made, or begun anew where it is there. Where it can't be opened there is a
    /// store all the same, and each of its writes fails.
    pub fn create<R: Files<File = File>>(
        rt: &R,
        alloc: Global,
        folder: &str,
        number: u32,
    ) -> Result<FileStore<File>, NoMemory>
        ensures fresh { IfOk result (λ store. store ≡ fresh store.file.opened) }
    {
        // All memory is taken before the file is emptied, so that a store that can't be made leaves what the folder has.
        let copied = PageSet::create(alloc)?;
        let name = format!(in alloc; "space-{number}")?;
        let path = Path::new(folder).join(alloc, name.as_str())?;
        Ok(FileStore::of(open_anew(rt, path.as_path()).ok(), copied))
    }
}

/// Opens an empty file to read and to write.
fn open_anew<R: Files<File = File>>(rt: &R, path: Path<'_>) -> io::Result<File> {
    let file = OpenOptions::new()
        .read(true)
        .write(true)
        .create(true)
        .truncate(true)
        .open(rt, path)?;
    // What is meant for a standard stream that was closed must not land in the file.
    if file.as_raw_fd() <= 2 {
        return file.try_clone();
    }
    Ok(file)
}

impl<F: FileExt + Drop> Store for FileStore<F> {
    ghost seen = { λ s. untold s.faults };

    ghost reads = { λ s. s.reads };

    ghost writes = { λ s. s.writes };

    ghost lasts = { true };

    fn read(&mut self, page: u32, words: &mut [u64]) -> Result<Copied, StoreFailed>
        requires count { length words.old ≡ 1024 }

        // As at any store.
        ensures read { IfOk result
            (λ copied. (untold self.old.faults).tells ≡ true
            → IfSome (copy_at (untold self.old.faults) page) (λ copy. copied_words copied words.new ≡ copy)) }
        ensures same { SameCopies (untold self.old.faults) (untold self.new.faults) }
        ensures counted { self.new.reads ≡ one_more self.old.reads }
        ensures unwritten { self.new.writes ≡ self.old.writes }
        ensures unfailed { IfOk result (λ _. self.new.faults ≡ self.old.faults) }
        ensures rose { OnErr result (Rises self.old.faults self.new.faults) }
        ensures never_falls { self.old.faults ≤ self.new.faults }
        ensures capped { self.new.faults ≤ 2 ^ 64 - 1 }

        // It fails only at a copy in the file. Any other page is zero.
        ensures fails { OnErr result (is_in_file self.old page ≡ true) }
        ensures zero { is_in_file self.old page ≡ false → result ≡ Ok Copied.Zeros }

        // Where it doesn't fail, the file gave the whole copy. Else it counts one fault.
        ensures gave { OnOk result (is_in_file self.old page ≡ true → MovesPage page self.old.file.gave self.new.file.gave) }
        ensures faults { self.new.faults ≡ (if is_ok result then self.old.faults else one_more self.old.faults) }

        // It writes nothing, and no page gets or loses its copy.
        ensures took { self.new.file.took ≡ self.old.file.took }
        ensures copied { self.new.copied ≡ self.old.copied }
        ensures same_file { self.new.file.opened ≡ self.old.file.opened }
    {
        self.reads = self.reads.saturating_add(1);
        if !self.is_in_file(page) {
            return Ok(Copied::Zeros);
        }
        let mut bytes = [0; PAGE_BYTES];
        if !read_page(&mut self.file, page, &mut bytes) {
            self.faults = self.faults.saturating_add(1);
            return Err(StoreFailed);
        }
        take_words(&bytes, words);
        Ok(Copied::Words)
    }

    #[tactic(auto, using(crate::proofs::UntoldCopies::sets_copy, crate::proofs::UntoldCopies::keeps_page))]
    fn write(&mut self, page: u32, words: &[u64]) -> Result<(), WriteRefused>
        requires count { length words.now ≡ 1024 }

        // As at any store.
        ensures wrote { IfOk result
            (λ _. SetsCopy page (Some words.now) (untold self.old.faults) (untold self.new.faults) × (keeps_at (untold self.new.faults) page ≡ true)) }
        ensures failed { result ≡ Err WriteRefused.Failed
            → SetsCopy page None (untold self.old.faults) (untold self.new.faults) × Rises self.old.faults self.new.faults }
        ensures counted { self.new.writes ≡ one_more self.old.writes }
        ensures unread { self.new.reads ≡ self.old.reads }
        ensures unfailed { IfOk result (λ _. self.new.faults ≡ self.old.faults) }
        ensures never_falls { self.old.faults ≤ self.new.faults }
        ensures capped { self.new.faults ≤ 2 ^ 64 - 1 }

        // Where it doesn't fail, the file took the whole copy, and the page has it from then on.
        ensures took { OnOk result (MovesPage page self.old.file.took self.new.file.took) }
        ensures copied { OnOk result (self.new.copied ≡ slice_set self.old.copied page true) }

        // Where it fails, no page gets or loses its copy, and it counts one fault.
        ensures same_copied { result ≡ Err WriteRefused.Failed → self.new.copied ≡ self.old.copied }
        ensures faults { self.new.faults ≡ (if is_ok result then self.old.faults else one_more self.old.faults) }

        // A store without its file refuses each write, and any store one past the pages of a space, but none for want of memory.
        ensures closed { self.old.file.opened ≡ false → result ≡ Err WriteRefused.Failed }
        ensures past { space_pages ≤ page → result ≡ Err WriteRefused.Failed }
        ensures no_memory { result ≢ Err WriteRefused.NoMemory }

        // It reads nothing.
        ensures gave { self.new.file.gave ≡ self.old.file.gave }
        ensures same_file { self.new.file.opened ≡ self.old.file.opened }
    {
        self.writes = self.writes.saturating_add(1);
        let mut bytes = [0; PAGE_BYTES];
        put_words(words, &mut bytes);
        if page >= PAGES || !write_page(&mut self.file, page, &bytes) {
            self.faults = self.faults.saturating_add(1);
            return Err(WriteRefused::Failed);
        }
        self.copied.insert(page);
        Ok(())
    }

    fn drop_pages(&mut self, first: u32, length: u32)
        // As at any store.
        ensures dropped { DropsCopies first length (untold self.old.faults) (untold self.new.faults) }
        ensures unread { self.new.reads ≡ self.old.reads }
        ensures unwritten { self.new.writes ≡ self.old.writes }

        // No page of the range has a copy of its own then, any other page has what it had, and the file is asked for nothing.
        ensures copied { (p : ℕ) → is_copied self.new p ≡ (if in_range first length p then false else is_copied self.old p) }
        ensures state { self.new ≡ record self.old { copied = self.new.copied } }
    {
        self.copied.remove_range(first, length);
    }

    fn told(&self) -> bool {
        false
    }

    fn faults(&self) -> u64 {
        self.faults
    }
}
