//! Files on a shelf in memory, each under its number, and the words that name them.

ghost use Rattle.std.specs.Prelude.{◌≡◌, ◌∷◌, ◌<◌, ◌+◌, ◌^◌, [], length, map, decimal, None, IsFalse, OnOk};
ghost use Rattle.fsw_outside.specs.Files.{file_named};
ghost use Rattle.fsw_outside.specs.MemShelf.{content_of, has_open_file, fault_count};
ghost use Rattle.book_rehearsals.specs.Shelves.{never_opened, file_bytes, IsAdded, HasFiles};

use fsw_outside::{MemShelf, NoMemory};
use itoa::Buffer;
use load_books::BookFile;
use rehearsal::Words;

/// Puts a file on the shelf under this number, and the number behind the words.
fn shelve_file(
    number: usize,
    bytes: &[u8],
    shelf: &mut MemShelf,
    words: &mut Words,
) -> Result<(), NoMemory>
    requires new_name { file_named (content_of shelf.old).files (decimal number) ≡ None }
    requires closed { IsFalse (has_open_file shelf.old) }
    ensures { OnOk result (IsAdded number bytes.now shelf.old shelf.new words.old words.new) }
{
    let mut digits = Buffer::new();
    let name = digits.format(number);
    shelf.put(name, bytes)?;
    words.add(name)
}

/// Puts the scenario on an empty shelf under number 0 and the files from number 1 on, and their names behind the words in this order.
pub(crate) fn shelve_files(
    scenario: &[u8],
    files: &[BookFile<'_>],
    shelf: &mut MemShelf,
    words: &mut Words,
) -> Result<(), NoMemory>
    requires empty { content_of shelf.old ≡ never_opened [] }
    requires well { fault_count shelf.old ≡ 0 }
    requires closed { IsFalse (has_open_file shelf.old) }
    ensures files { OnOk result (HasFiles words.old (scenario.now
        ∷ map file_bytes files.now) shelf.new words.new) }
    ensures few { 1 + length files.now < 2 ^ 64 }
{
    shelve_file(0, scenario, shelf, words)?;
    'files: for (place, file) in files.iter().enumerate() {
        shelve_file(place + 1, file.bytes.as_slice(), shelf, words)?;
    }
    Ok(())
}
