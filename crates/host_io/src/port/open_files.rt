// Which files are open. None of them is created, by whatever name: that would empty it.
ghost use Rattle.std.specs.Prelude.{◌≡◌, ◌↔◌, IsErr, IfOk, [], ◌∷◌, ◌++◌, Contains};

use arrayvec::ArrayVec;
use std::fs::{File, Files, Metadata};
use std::io::ErrorKind;
use std::marker::Model;
use std::os::unix::fs::MetadataExt;
use std::{fs, io};

// A file of the system: its device, and its number there.
#[derive(Clone, Copy, Default, PartialEq, Eq, Drop)]
pub(super) struct Place {
    device: u64,
    number: u64,
}

/// The regular files that were opened or created; there are at most as many as roles.
#[derive(Drop)]
pub(super) struct OpenFiles {
    places: ArrayVec<Place, 10>,
}

impl Model for OpenFiles {
    ghost use Rattle.std.specs.Prelude.{List};
    ghost use Rattle.host_io.specs.declared.port.open_files.Place.{Place};

    ghost Value = { List Place };

    ghost view = { λ f. f.places.items };
}

impl OpenFiles {
    pub(super) fn new() -> Self
        ensures { result ≡ [] }
    {
        OpenFiles {
            places: ArrayVec::new(),
        }
    }

    /// This file is open from now on.
    pub(super) fn note(&mut self, file: &File) -> io::Result<()> {
        match place_of(&file.metadata()?) {
            Some(place) => self.add(place),
            None => Ok(()),
        }
    }

    /// An error if the file of this name is open, or is standard output or standard error.
    pub(super) fn refuse<F: Files>(&self, files: &F, name: &str) -> io::Result<()> {
        let Some(place) = place_at(files, name) else {
            return Ok(());
        };
        if place_at(files, "/dev/stdout") == Some(place)
            || place_at(files, "/dev/stderr") == Some(place)
        {
            return Err(io::Error::from(ErrorKind::ResourceBusy));
        }
        self.refuse_place(place)
    }

    fn add(&mut self, place: Place) -> io::Result<()>
        ensures { IfOk result (λ _. self.new ≡ self.old ++ place ∷ []) }
    {
        match self.places.try_push(place) {
            Ok(()) => Ok(()),
            Err(_) => Err(io::Error::from(ErrorKind::ResourceBusy)),
        }
    }

    fn refuse_place(&self, place: Place) -> io::Result<()>
        ensures { IsErr result ↔ Contains self.now place }
    {
        if self.places.contains(&place) {
            Err(io::Error::from(ErrorKind::ResourceBusy))
        } else {
            Ok(())
        }
    }
}

// Where the file of this name is, if it is a regular one that stands.
fn place_at<F: Files>(files: &F, name: &str) -> Option<Place> {
    place_of(&fs::metadata(files, name).ok()?)
}

// Trusted: two files of the system have not the same place while both are open.
fn place_of(metadata: &Metadata) -> Option<Place> {
    if !metadata.is_file() {
        return None;
    }
    Some(Place {
        device: metadata.dev(),
        number: metadata.ino(),
    })
}
