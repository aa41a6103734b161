// Sets standard input as one text with padding and a frame, and prints what it did.
#![tactic(auto)]

mod size;
mod trouble;

ghost use Rattle.std.specs.Prelude.{◌≡◌, length, Ok};
ghost use Rattle.specimen.specs.Sizes.{size_answer, judgement};

use fault::{Fault, Reason};
use layers::frame::Frame;
use layers::padding::Padding;
use letters::{Kind, verify};
use list::List;
use shelf::Shelf;
use size::{Size, measure};
use std::io;
use std::io::{Read, Write};
use text::place::Place;
use text::shelves::TextShelf;
use text::words::count_words;
use trouble::Trouble;

/// The most bytes that a file has.
const LARGEST_FILE: usize = 32768;

fn main(rt: HostRuntime) -> io::Result<()> {
    let mut file = Vec::new(rt.alloc());
    rt.stdin().read_to_end(&mut file)?;
    match show(&rt, file.as_slice()) {
        Ok(()) => Ok(()),
        // Printed here: of the two troubles this one alone is printed, and a `Display` of `Trouble` would owe words for the other.
        Err(Trouble::Refused(fault)) => {
            let number = fault.reason.number();
            let at = fault.place;
            println!(rt; "refused {number} at byte {at}")
        }
        Err(Trouble::Io(error)) => Err(error),
    }
}

// Whether the file is short enough and its bytes are those of a text.
fn judge(file: &[u8]) -> Result<(), Fault>
    ensures { result ≡ judgement file.now }
{
    if file.len() > LARGEST_FILE {
        return Err(Fault::new(Reason::FileTooLong));
    }
    verify(Kind::Text, file)
}

// Sets the file and prints what was done.
fn show(rt: &HostRuntime, file: &[u8]) -> Result<(), Trouble> {
    judge(file)?;
    let end = file.len();
    let mut room = [Place { from: 0, to: 0 }];
    let mut places = List::new(&mut room);
    places.push(Place { from: 0, to: end })?;
    let padded = Padding::new(TextShelf::new(file, &places), 1)?;
    let framed = Frame::new(padded, 1)?;
    let size = measure(&framed)?;
    let words = count_words(file);
    println!(rt; "read {end} bytes, {words} words")?;
    println!(rt; "{size}")?;
    // An array, as wide as any content is set: memory that is asked for here might not be had, with half of the answer printed.
    let mut row = [b' '; 2000];
    print_lines(rt, &framed, size, &mut row[..size.width as usize])?;
    Ok(())
}

// Prints the lines of content 0 by way of a row of its width. Its size was told by the shelf, so no line is refused.
fn print_lines<S: Shelf>(rt: &HostRuntime, shelf: &S, size: Size, row: &mut [u8]) -> io::Result<()>
    requires told { Ok size ≡ size_answer (S.meaning shelf.now) }
    requires wide { length row.old ≡ size.width }
{
    for r in 0..size.height {
        match shelf.line(0, size.width, r, row) {
            Ok(()) => print_row(rt, row)?,
            Err(_) => unreachable(),
        }
    }
    Ok(())
}

fn print_row(rt: &HostRuntime, row: &[u8]) -> io::Result<()> {
    rt.stdout().write_all(row)?;
    println!(rt; "")
}
