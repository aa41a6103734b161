// Texts and blocks of a file, lent and not copied.
ghost use Rattle.std.specs.Prelude.{◌≡◌, true, false, MatchOption};
ghost use Rattle.list.specs.Held.{items};
ghost use Rattle.letters.specs.declared.Kind.{Kind};
ghost use Rattle.letters.specs.declared.Kind.TheVariants.{Text, Block};
ghost use Rattle.typeset.proofs.Lawfully.{shelved_lawful};
ghost use Rattle.text.specs.Places.{place_at, inside, bytes_of, contents, Kept};
ghost use Rattle.text.specs.Readings.{Read};

use crate::place::Place;
use crate::query::{show, survey};
use crate::survey::Survey;
use fault::{Fault, Reason};
use letters::Kind;
use list::List;
use shelf::Shelf;
use std::marker::PhantomData;

/// The kind of all contents of a shelf.
pub trait Contents {
    const KIND: Kind;

    ghost KIND: { Kind };
}

/// All contents are texts.
#[derive(Clone, Copy)]
pub struct Texts;

impl Contents for Texts {
    const KIND: Kind = Kind::Text;

    ghost KIND = { Text };
}

/// All contents are blocks.
#[derive(Clone, Copy)]
pub struct Blocks;

impl Contents for Blocks {
    const KIND: Kind = Kind::Block;

    ghost KIND = { Block };
}

/// The contents that stand at the places of a file.
#[derive(Clone, Copy)]
pub struct FileShelf<'f, 'l, 'p, C> {
    file: &'f [u8],
    places: &'l List<'p, Place>,
    contents: PhantomData<C>,
}

/// The texts that stand at the places of a file.
pub type TextShelf<'f, 'l, 'p> = FileShelf<'f, 'l, 'p, Texts>;

/// The blocks that stand at the places of a file.
pub type BlockShelf<'f, 'l, 'p> = FileShelf<'f, 'l, 'p, Blocks>;

impl<'f, 'l, 'p, C: Contents> FileShelf<'f, 'l, 'p, C> {
    /// The contents at the places of the file, content k at place k.
    pub fn new(file: &'f [u8], places: &'l List<'p, Place>) -> FileShelf<'f, 'l, 'p, C>
        ensures file { result.file.now ≡ file.now }
        ensures places { result.places.now ≡ places.now }
        ensures kept { Kept C.KIND result.file.now (items result.places.now) }
    {
        FileShelf {
            file,
            places,
            contents: PhantomData,
        }
    }

    // The bytes of content k, if its place lies in the file.
    fn stretch(&self, k: u16) -> Option<&'f [u8]>
        ensures { MatchOption result (inside self.now.file.now (place_at (items self.now.places.now) k) ≡ false) (λ x. (inside self.now.file.now (place_at (items self.now.places.now) k) ≡ true) × (x.now ≡ bytes_of self.now.file.now (items self.now.places.now) k)) }
    {
        let place = self.places.get(k as usize)?;
        self.file.get(place.from..place.to)
    }

    // The bytes of content k and what one reading of them tells, if it is on the shelf.
    fn read(&self, k: u16, w: u16, r: u16) -> Option<(&'f [u8], Survey)>
        ensures { MatchOption result ((contents C.KIND self.now.file.now (items self.now.places.now)).has k ≡ false) (λ y. Read C.KIND self.now.file.now (items self.now.places.now) k w r y.0.now y.1) }
    {
        let bytes = self.stretch(k)?;
        let told = survey(C::KIND, bytes, w, r)?;
        Some((bytes, told))
    }
}

impl<'f, 'l, 'p, C: Contents> Shelf for FileShelf<'f, 'l, 'p, C> {
    ghost meaning = { λ s. contents C.KIND s.file.now (items s.places.now) };

    ghost lawful = { λ s. shelved_lawful (λ k. inside s.file.now (place_at (items s.places.now) k)) (bytes_of s.file.now (items s.places.now)) C.KIND };

    fn widths(&self, k: u16) -> Result<(u16, u16), Fault> {
        let (_, told) = self.read(k, 1, 0).ok_or(Fault::new(Reason::NotOnShelf))?;
        Ok((told.least, told.most))
    }

    fn height(&self, k: u16, w: u16) -> Result<u16, Fault> {
        let (_, told) = self.read(k, w, 0).ok_or(Fault::new(Reason::NotOnShelf))?;
        told.height_at(w)
    }

    fn line(&self, k: u16, w: u16, r: u16, out: &mut [u8]) -> Result<(), Fault> {
        let (bytes, told) = self.read(k, w, r).ok_or(Fault::new(Reason::NotOnShelf))?;
        let high = told.height_at(w)?;
        if r >= high {
            return Err(Fault::new(Reason::PastLastLine));
        }
        if out.len() != w as usize {
            return Err(Fault::new(Reason::WrongLineLength));
        }
        show(C::KIND, &bytes[told.start..], out);
        Ok(())
    }
}
