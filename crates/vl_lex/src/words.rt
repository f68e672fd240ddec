//! Keywords, marks and system names: the tables of their spellings.

ghost use Rattle.std.specs.Prelude.{◌≡◌, ◌≤◌, ◌<◌, length};
ghost use Rattle.vl_lex.specs.Words as w;
ghost use Rattle.vl_pre.specs.Tables.{entry, pairs};
ghost use Rattle.vl_lex.specs.Calls.Reading.{FindsMark};

use vl_pre::tables::find;
use vl_tree::token::{Key, Mark, System};

static KEYS: [(&[u8], Key); 56] = [
    (b"always", Key::Always),
    (b"assign", Key::Assign),
    (b"automatic", Key::Automatic),
    (b"begin", Key::Begin),
    (b"case", Key::Case),
    (b"casez", Key::Casez),
    (b"default", Key::Default),
    (b"else", Key::Else),
    (b"end", Key::End),
    (b"endcase", Key::Endcase),
    (b"endfunction", Key::Endfunction),
    (b"endgenerate", Key::Endgenerate),
    (b"endmodule", Key::Endmodule),
    (b"for", Key::For),
    (b"function", Key::Function),
    (b"generate", Key::Generate),
    (b"genvar", Key::Genvar),
    (b"if", Key::If),
    (b"initial", Key::Initial),
    (b"input", Key::Input),
    (b"integer", Key::Integer),
    (b"localparam", Key::Localparam),
    (b"module", Key::Module),
    (b"negedge", Key::Negedge),
    (b"or", Key::Or),
    (b"output", Key::Output),
    (b"parameter", Key::Parameter),
    (b"posedge", Key::Posedge),
    (b"reg", Key::Reg),
    (b"signed", Key::Signed),
    (b"wire", Key::Wire),
    (b"inout", Key::Inout),
    (b"casex", Key::Casex),
    (b"task", Key::Task),
    (b"fork", Key::Fork),
    (b"join", Key::Join),
    (b"wait", Key::Wait),
    (b"force", Key::Force),
    (b"release", Key::Release),
    (b"deassign", Key::Deassign),
    (b"while", Key::While),
    (b"repeat", Key::Repeat),
    (b"forever", Key::Forever),
    (b"real", Key::Real),
    (b"realtime", Key::Realtime),
    (b"time", Key::Time),
    (b"event", Key::Event),
    (b"tri", Key::Tri),
    (b"wand", Key::Wand),
    (b"wor", Key::Wor),
    (b"supply0", Key::Supply0),
    (b"supply1", Key::Supply1),
    (b"defparam", Key::Defparam),
    (b"specify", Key::Specify),
    (b"primitive", Key::Primitive),
    (b"disable", Key::Disable),
];

// Longer marks stand before those that they begin with, and the commonest first.
static MARKS: [(&[u8], Mark); 44] = [
    (b"(", Mark::OpenParen),
    (b")", Mark::CloseParen),
    (b";", Mark::Semicolon),
    (b",", Mark::Comma),
    (b"[", Mark::OpenBracket),
    (b"]", Mark::CloseBracket),
    (b"{", Mark::OpenBrace),
    (b"}", Mark::CloseBrace),
    (b".", Mark::Dot),
    (b":", Mark::Colon),
    (b"#", Mark::Hash),
    (b"@", Mark::At),
    (b"?", Mark::Question),
    (b"*", Mark::Star),
    (b"/", Mark::Slash),
    (b"%", Mark::Percent),
    (b"<<<", Mark::ArithmeticLeft),
    (b">>>", Mark::ArithmeticRight),
    (b"===", Mark::CaseEqual),
    (b"!==", Mark::CaseNotEqual),
    (b"<<", Mark::ShiftLeft),
    (b">>", Mark::ShiftRight),
    (b"<=", Mark::LessEqual),
    (b">=", Mark::GreaterEqual),
    (b"==", Mark::EqualEqual),
    (b"!=", Mark::NotEqual),
    (b"&&", Mark::AndAnd),
    (b"||", Mark::OrOr),
    (b"~&", Mark::Nand),
    (b"~|", Mark::Nor),
    (b"~^", Mark::Xnor),
    (b"^~", Mark::Xnor),
    (b"+:", Mark::PlusColon),
    (b"-:", Mark::MinusColon),
    (b"=", Mark::Equals),
    (b"+", Mark::Plus),
    (b"-", Mark::Minus),
    (b"<", Mark::Less),
    (b">", Mark::Greater),
    (b"&", Mark::And),
    (b"|", Mark::Or),
    (b"^", Mark::Xor),
    (b"!", Mark::Not),
    (b"~", Mark::Tilde),
];

static SYSTEMS: [(&[u8], System); 8] = [
    (b"display", System::Display),
    (b"write", System::Write),
    (b"fwrite", System::Fwrite),
    (b"stop", System::Stop),
    (b"fatal", System::Fatal),
    (b"signed", System::Signed),
    (b"unsigned", System::Unsigned),
    (b"clog2", System::Clog2),
];

/// The keyword that the word is, if it is one.
pub fn keyword(word: &[u8]) -> Option<Key>
    ensures { result ≡ entry w.keys word.now }
{
    find(KEYS.as_slice(), word)
}

/// The system name that the word is, if a rule uses it.
pub fn system_name(word: &[u8]) -> Option<System>
    ensures { result ≡ entry w.systems word.now }
{
    find(SYSTEMS.as_slice(), word)
}

// The first of these marks with which the bytes begin, and how many bytes it has.
fn find_mark(entries: &[(&[u8], Mark)], bytes: &[u8]) -> Option<(Mark, usize)>
    ensures { FindsMark (pairs entries.now) bytes.now result }
{
    for entry in entries {
        if bytes.starts_with(entry.0) {
            return Some((entry.1, entry.0.len()));
        }
    }
    None
}

/// The mark at the head, and how many bytes it has.
pub fn mark_at(bytes: &[u8]) -> Option<(Mark, usize)>
    ensures { FindsMark w.marks bytes.now result }
{
    find_mark(MARKS.as_slice(), bytes)
}
