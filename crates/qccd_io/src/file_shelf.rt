//! The files of the system.

ghost use Rattle.std.specs.Prelude.{◌≡◌, None};

use crate::failed::Failed;
use crate::shelf::Shelf;
use crate::source::Source;
use std::fs::File;
use std::io::Read;
use std::marker::Model;
use std::rt::Files;

/// An open file. It tells nothing of its bytes.
#[derive(Drop)]
pub struct FileSource<F> {
    file: F,
    faults: u64,
}

impl<F> Model for FileSource<F> {
    ghost use Rattle.std.specs.Prelude.{ℕ};

    // How many reads failed.
    ghost Value = { ℕ };

    ghost view = { λ s. s.faults };
}

impl<F: Read + Drop> Source for FileSource<F> {
    ghost faults = { λ s. s };

    ghost told = { λ _. None };

    fn read(&mut self, buf: &mut [u8]) -> Result<usize, Failed> {
        match self.file.read(buf) {
            Ok(count) => Ok(count),
            Err(_) => {
                self.faults = self.faults.saturating_add(1);
                Err(Failed)
            }
        }
    }
}

/// The files of the system, by their paths. It tells nothing of what they hold.
#[derive(Drop)]
pub struct FileShelf<'a, R: Files> {
    files: &'a R,
    faults: u64,
}

impl<'a, R: Files> Model for FileShelf<'a, R> {
    ghost use Rattle.std.specs.Prelude.{ℕ};

    // How many files could not be opened, and how many reads of files that were given back failed.
    ghost Value = { ℕ };

    ghost view = { λ s. s.faults };
}

impl<'a, R: Files> FileShelf<'a, R> {
    /// The files of this system.
    pub fn of(files: &'a R) -> FileShelf<'a, R>
        ensures { result ≡ 0 }
    {
        FileShelf { files, faults: 0 }
    }
}

impl<'a, R: Files> Shelf for FileShelf<'a, R> {
    type Src = FileSource<R::File>;

    ghost faults = { λ s. s };

    ghost told = { λ _. None };

    fn lend(&mut self, name: &str) -> Result<FileSource<R::File>, Failed> {
        match File::open(self.files, name) {
            Ok(file) => Ok(FileSource { file, faults: 0 }),
            Err(_) => {
                self.faults = self.faults.saturating_add(1);
                Err(Failed)
            }
        }
    }

    fn give_back(&mut self, src: FileSource<R::File>) {
        self.faults = self.faults.saturating_add(src.faults);
    }
}

#[cfg(test)]
mod tests {
    use super::*;
    use crate::fetch_all;
    use std::io::Chain;
    use std::test::Fail;

    /// A shelf with one file in two parts. A read ends where the first part does.
    #[derive(Drop)]
    struct InTwo<'a> {
        first: &'a [u8],
        second: &'a [u8],
        faults: u64,
    }

    impl<'a> Shelf for InTwo<'a> {
        type Src = FileSource<Chain<&'a [u8], &'a [u8]>>;

        ghost faults = { λ s. s.faults };

        ghost told = { λ _. None };

        fn lend(&mut self, _name: &str) -> Result<FileSource<Chain<&'a [u8], &'a [u8]>>, Failed> {
            Ok(FileSource {
                file: self.first.chain(self.second),
                faults: 0,
            })
        }

        fn give_back(&mut self, src: FileSource<Chain<&'a [u8], &'a [u8]>>) {
            self.faults = self.faults.saturating_add(src.faults);
        }
    }

    #[test]
    fn reads_on_after_a_short_read(rt: HostRuntime) -> Result<(), Fail> {
        let first = vec![in rt.alloc(); b'a'; 70_000]?;
        let second = vec![in rt.alloc(); b'b'; 50_000]?;
        let mut shelf = InTwo {
            first: &first,
            second: &second,
            faults: 0,
        };
        let Ok(bytes) = fetch_all(rt.alloc(), &mut shelf, "a", 120_000) else {
            return Err(Fail::from("not fetched"));
        };
        assert_eq!(rt; bytes.len(), 120_000);
        assert!(rt; bytes.starts_with(&first));
        assert!(rt; bytes.ends_with(&second));
        Ok(())
    }
}
