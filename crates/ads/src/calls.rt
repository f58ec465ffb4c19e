// The calls. The answer of each is equated with the defined value that the call's own contract has, with the final bytes
// of what was lent; `alone` says that beside a number nothing else is answered.
ghost use Rattle.std.specs.Prelude.{◌≡◌, cond};
ghost use Rattle.metafile.specs.Bytes.{choose};
ghost use Rattle.metafile.specs.Reading.{clean_at};
ghost use Rattle.metafile.specs.Answers.{outcome};
ghost use Rattle.metafile.specs.Begin.{begin};
ghost use Rattle.metafile.specs.Append.{append};
ghost use Rattle.metafile.specs.Calls.{read, parent, contents, gather};
ghost use Rattle.metafile.specs.Ancestors.{ancestors};
ghost use Rattle.metafile.specs.Relations.{relations_write, relations_check, relations_check_latest};
ghost use Rattle.begin.specs.Given.{given_of as begun};
ghost use Rattle.append.specs.Given.{given_of};
ghost use Rattle.contents.specs.Outcome.{part_of, part_outcome};
ghost use Rattle.read.specs.State.{read_outcome};
ghost use Rattle.listing_text.specs.Text.{listing_outcome};
ghost use Rattle.price.specs.Price.{price};
ghost use Rattle.blocks.specs.Blocks.{pack, unpack};
ghost use Rattle.ads.specs.Answers.{written_answer, written_alone, counted_answer, counted_alone, counted_row_answer, counted_row_alone, parent_answer, parent_alone, ends_answer, ends_alone, ancestry_answer, ancestry_alone, priced_answer, priced_alone};

use crate::answers::{Ancestry, Counted, CountedRow, Ends, Parent, Priced, Written};
use contents::Part;
use metafile::clean::clean_at;
use metafile::{Description, ReadAnswer, Row};

#[unsafe(no_mangle)]
pub extern "C" fn ads_begin(
    strategy: &[u8; 3],
    mark: &[u8],
    serial: &[u8; 38],
    recorded: &[u8; 8],
    recorder: &[u8],
    written: &[u8; 8],
    writer: &[u8],
    buffer: &mut [u8],
) -> Written
    ensures answer { outcome (written_answer result) buffer.new ≡ begin (begun strategy.now mark.now serial.now recorded.now recorder.now written.now writer.now) buffer.old }
    ensures alone { result ≡ choose result.number result written_alone }
{
    let length = begin::begin(
        *strategy, mark, *serial, *recorded, recorder, *written, writer, buffer,
    );
    length.into()
}

// The lent table is a slice of rows, passed on as it is.
#[unsafe(no_mangle)]
pub extern "C" fn ads_read(file: &[u8], rows: &mut [Row]) -> ReadAnswer
    ensures answer { read_outcome result rows.new ≡ read file.now rows.old }
{
    read::read(file, rows)
}

// "Clean means number 0 and stop at the file's end": of a reading of a file of so many bytes, and never of no bytes.
#[unsafe(no_mangle)]
pub extern "C" fn ads_is_clean(reading: ReadAnswer, length: usize) -> bool
    ensures { result ≡ clean_at length reading.number reading.stop }
{
    clean_at(length, reading.number, reading.stop)
}

#[unsafe(no_mangle)]
pub extern "C" fn ads_parent(file: &[u8], row: usize, dependency: usize) -> Parent
    ensures answer { parent_answer result ≡ parent file.now row dependency }
    ensures alone { result ≡ choose result.number (cond result.found result (parent_alone 0)) parent_alone }
{
    parent::parent(file, row, dependency).into()
}

#[unsafe(no_mangle)]
pub extern "C" fn ads_append(
    buffer: &mut [u8],
    length: usize,
    description: Description,
    parents: &[usize],
    specific: &[u8],
    contents: &[u8],
    open: bool,
) -> Ends
    ensures answer { outcome (ends_answer result) buffer.new ≡ append buffer.old length (given_of description parents.now specific.now contents.now «open») }
    ensures alone { result ≡ choose result.number result ends_alone }
{
    let ends = append::append(
        buffer,
        length,
        description,
        parents,
        specific,
        contents,
        open,
    );
    ends.into()
}

// An exported function can't return a part of the file, so it answers the part's place and bytes.
#[unsafe(no_mangle)]
pub extern "C" fn ads_contents(file: &[u8], row: usize) -> Part
    ensures answer { part_outcome file.now result ≡ contents file.now row }
    ensures names { result ≡ part_of file.now row }
{
    contents::part_of(file, row)
}

#[unsafe(no_mangle)]
pub extern "C" fn ads_gather(file: &[u8], row: usize, id: &[u8], buffer: &mut [u8]) -> Written
    ensures answer { outcome (written_answer result) buffer.new ≡ gather file.now row id.now buffer.old }
    ensures alone { result ≡ choose result.number result written_alone }
{
    gather::gather(file, row, id, buffer).into()
}

#[unsafe(no_mangle)]
pub extern "C" fn ads_ancestors(file: &[u8], row: usize, rows: &mut [usize]) -> Ancestry
    ensures answer { outcome (ancestry_answer result) rows.new ≡ ancestors file.now row rows.old }
    ensures alone { result ≡ choose result.number result ancestry_alone }
{
    ancestors::ancestors(file, row, rows).into()
}

#[unsafe(no_mangle)]
pub extern "C" fn ads_relations_write(file: &[u8], buffer: &mut [u8]) -> Written
    ensures answer { outcome (written_answer result) buffer.new ≡ relations_write file.now buffer.old }
    ensures alone { result ≡ choose result.number result written_alone }
{
    relations_write::write(file, buffer).into()
}

#[unsafe(no_mangle)]
pub extern "C" fn ads_relations_check(file: &[u8], row: usize, verdicts: &mut [u32]) -> Counted
    ensures answer { outcome (counted_answer result) verdicts.new ≡ relations_check file.now row verdicts.old }
    ensures alone { result ≡ choose result.number result counted_alone }
{
    relations_check::check(file, row, verdicts).into()
}

#[unsafe(no_mangle)]
pub extern "C" fn ads_relations_check_latest(file: &[u8], verdicts: &mut [u32]) -> CountedRow
    ensures answer { outcome (counted_row_answer result) verdicts.new ≡ relations_check_latest file.now verdicts.old }
    ensures alone { result ≡ choose result.number result counted_row_alone }
{
    relations_check::check_latest(file, verdicts).into()
}

#[unsafe(no_mangle)]
pub extern "C" fn ads_listing(input: &[u8], buffer: &mut [u8]) -> Written
    ensures answer { outcome (written_answer result) buffer.new ≡ listing_outcome input.now buffer.old }
    ensures alone { result ≡ choose result.number result written_alone }
{
    listing_text::listing(input, buffer).into()
}

#[unsafe(no_mangle)]
pub extern "C" fn ads_price(file: &[u8], fee: u64, rate: u64, buffer: &mut [u8]) -> Priced
    ensures answer { outcome (priced_answer result) buffer.new ≡ price file.now fee rate buffer.old }
    ensures alone { result ≡ choose result.number result priced_alone }
{
    price::price(file, fee, rate, buffer).into()
}

#[unsafe(no_mangle)]
pub extern "C" fn ads_pack(file: &[u8], buffer: &mut [u8]) -> Written
    ensures answer { outcome (written_answer result) buffer.new ≡ pack file.now buffer.old }
    ensures alone { result ≡ choose result.number result written_alone }
{
    blocks::pack(file, buffer).into()
}

#[unsafe(no_mangle)]
pub extern "C" fn ads_unpack(blocks: &[u8], buffer: &mut [u8]) -> Written
    ensures answer { outcome (written_answer result) buffer.new ≡ unpack blocks.now buffer.old }
    ensures alone { result ≡ choose result.number result written_alone }
{
    blocks::unpack(blocks, buffer).into()
}
