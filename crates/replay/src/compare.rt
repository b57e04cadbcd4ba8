// One record: what it is answered is held to the bytes recorded of the answer and of the tables.
//
// A print that fails is passed over, here and in the other files: the counts are what the program is for.
use crate::text::part;
use answers::job::Answered;
use answers::room::{ANSWER_BYTES, TABLE_BYTES};
use sheet::{NoRoom, same};

// Names a record.
pub(crate) fn tell(rt: &impl Print, record: usize) {
    let _ = print!(rt; "record {record}: ");
}

// A record of a job: its place in the file, its sheet, and what is recorded of the answer and of the tables.
#[derive(Clone, Copy)]
pub(crate) struct Record<'a> {
    pub(crate) number: usize,
    pub(crate) sheet: &'a [u8],
    pub(crate) answer: &'a [u8],
    pub(crate) tables: &'a [u8],
}

impl<'a> Record<'a> {
    // Has the job answered, and says whether the answer and the tables agree with those recorded.
    pub(crate) fn agrees<F: FnOnce(&mut [u8], &mut [u8]) -> Answered>(
        &self,
        rt: &impl Print,
        answer: F,
    ) -> bool
        requires { F.IsAlwaysCallable answer }
    {
        let mut out = [0u8; ANSWER_BYTES];
        let mut lines = [0u8; TABLE_BYTES];
        let r = answer(&mut out, &mut lines);
        let a = self.answer_agrees(rt, written(&out, r.answer));
        let t = self.tables_agree(rt, written(&lines, r.tables));
        a && t
    }

    // Whether the answer's bytes are those recorded.
    fn answer_agrees(&self, rt: &impl Print, found: Option<&[u8]>) -> bool {
        let Some(found) = found else {
            return self.no_room(rt, "answer");
        };
        if same(found, self.answer) {
            return true;
        }
        tell(rt, self.number);
        let _ = println!(rt; "answer differs");
        false
    }

    // Whether the bytes of the tables are those recorded; else the first line that differs is named, and printed as it is recorded and
    // as it is answered.
    fn tables_agree(&self, rt: &impl Print, found: Option<&[u8]>) -> bool {
        let Some(found) = found else {
            return self.no_room(rt, "tables");
        };
        if same(found, self.tables) {
            return true;
        }
        let line = common_lines(self.tables, found);
        tell(rt, self.number);
        let _ = println!(rt; "tables differ at line {line}");
        print_line(rt, "recorded: ", self.tables, line);
        print_line(rt, "answered: ", found, line);
        false
    }

    fn no_room(&self, rt: &impl Print, what: &str) -> bool {
        tell(rt, self.number);
        let _ = println!(rt; "no room for the {what}");
        false
    }
}

// What a call has written to the front of a buffer; nothing where it had no room.
fn written(out: &[u8], w: Result<usize, NoRoom>) -> Option<&[u8]> {
    match w {
        Ok(n) => Some(part(out, 0, n)),
        Err(_) => None,
    }
}

fn is_feed(b: &u8) -> bool {
    *b == b'\n'
}

// How many lines two texts have in common before the first that differs.
fn common_lines(text: &[u8], other: &[u8]) -> usize {
    text.split_inclusive(is_feed)
        .zip(other.split_inclusive(is_feed))
        .take_while(|pair| pair.0 == pair.1)
        .count()
}

// Prints a line of a text; an empty one past its end.
fn print_line(rt: &impl Print, what: &str, text: &[u8], number: usize) {
    let _ = print!(rt; "{what}");
    let _ = rt.write_all(text.split_inclusive(is_feed).nth(number).unwrap_or(b"\n"));
}
