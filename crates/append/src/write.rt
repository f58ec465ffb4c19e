// The new chunk, put behind the file: header with content length line, data, closing. The file is the first `length`
// bytes of the buffer; every write is at or behind them, and parents and mark are copied out of them.
ghost use Rattle.std.specs.Prelude.{◌≡◌, length as size, take};
ghost use Rattle.metafile.specs.Answers.{placed, first_refusal};
ghost use Rattle.metafile.specs.Append.{first_write, new_chunk, first_end, append_tests};
ghost use Rattle.walk.specs.Survey.{survey_of};
ghost use Rattle.writer.specs.Parents.{Located};
ghost use Rattle.append.specs.Given.{given_in, ends_of};

use crate::Given;
use metafile::Ends;
use table::numbers;
use walk::Survey;

impl Given<'_> {
    // The first write: the header and the content length line, with parents by where their chunks begin and end.
    fn put_header(
        &self,
        buffer: &mut [u8],
        length: usize,
        mark: usize,
        places: [usize; 16],
        ends: [usize; 16],
    ) -> usize
        requires open_value { first_refusal (append_tests buffer.old length (given_in self.now)) ≡ 0 }
        requires located { Located (take length buffer.old) mark self.now.parents.now places ends }
        ensures { (result ≡ first_end (take length buffer.old) (given_in self.now)) × (buffer.new ≡ placed length (first_write (take length buffer.old) (given_in self.now)) buffer.old) }
    {
        let values = writer::head_values(self.description, self.parents.len(), self.specific.len());
        let count = writer::count_value(self.is_open, self.contents.len());
        let dependencies = lines::put_lines(
            buffer,
            length,
            numbers::CHUNK_HEADER_LENGTH,
            9,
            &values,
        );
        let behind = writer::put_parents(
            buffer,
            length,
            dependencies,
            mark,
            self.parents,
            places,
            ends,
        );
        let line = lines::put_bytes(buffer, behind, self.specific);
        lines::put_lines(buffer, line, numbers::CONTENT_LENGTH, 1, &count)
    }

    pub fn put_chunk(&self, buffer: &mut [u8], length: usize, survey: Survey) -> Ends
        requires open_value { first_refusal (append_tests buffer.old length (given_in self.now)) ≡ 0 }
        requires survey_value { survey ≡ survey_of (take length buffer.old) self.now.description.serial self.now.parents.now }
        ensures { (result ≡ ends_of (take length buffer.old) (given_in self.now)) × (buffer.new ≡ placed length (new_chunk (take length buffer.old) (given_in self.now)) buffer.old) }
    {
        let h = walk::header(&buffer[..length]);
        let mark = writer::mark_of(&buffer[..length], h.mark);
        let values = writer::closing_values(self.description);
        let first = self.put_header(buffer, length, h.mark, survey.places, survey.ends);
        let second = lines::put_bytes(buffer, first, self.contents);
        let third = lines::put_closing(buffer, length, second, &mark[..h.mark], &values);
        Ends {
            first,
            second,
            third,
        }
    }
}
