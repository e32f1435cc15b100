// The requests: their first words, the kinds of the fields after them, and what a line asks.
ghost use Rattle.std.specs.Prelude.{◌≡◌, ◌≤◌, IfSome, length};
ghost use Rattle.console_held.specs.Questions.{most_line, most_table};
ghost use Rattle.console_held.specs.Requests.{Held};
ghost use Rattle.console_held.specs.Inner.{InLimits, question_in};
ghost use Rattle.console.specs.Answers.{forms, no_form, form_for, response_to};
ghost use Rattle.console.specs.Inner.{FirstFound, form_said, asked_answer};

use console_held::unchecked::asked;
use console_held::unchecked::changes::Change;
use console_held::unchecked::kind::Kind;
use console_held::unchecked::query::Query;
use console_replies::unchecked::replies::Call;
use text::unchecked::fields;

// Those that change what is held, and those that leave it.
#[derive(Clone, Copy)]
pub enum Request {
    Changes(Change),
    Replies(Call),
}

// A request's first word, the kinds of the fields after it, and the request.
struct Form {
    word: &'static [u8],
    kinds: &'static [Kind],
    request: Request,
}

// Each with its line above it, as in specs/Answers.antt.
const FORMS: [Form; 18] = [
    // `topology STREAM`
    Form {
        word: b"topology",
        kinds: &[Kind::Bytes],
        request: Request::Changes(Change::Topology),
    },
    // `write ROOM`
    Form {
        word: b"write",
        kinds: &[Kind::Room],
        request: Request::Replies(Call::Write),
    },
    // `order D MODE ROOM`
    Form {
        word: b"order",
        kinds: &[Kind::Place, Kind::Mode, Kind::Room],
        request: Request::Replies(Call::Order),
    },
    // `check-order D MODE ORDER`
    Form {
        word: b"check-order",
        kinds: &[Kind::Place, Kind::Mode, Kind::Bytes],
        request: Request::Replies(Call::CheckOrder),
    },
    // `fill D ORDER ROOM`
    Form {
        word: b"fill",
        kinds: &[Kind::Place, Kind::Bytes, Kind::Room],
        request: Request::Replies(Call::Fill),
    },
    // `load-table TABLE`
    Form {
        word: b"load-table",
        kinds: &[Kind::Bytes],
        request: Request::Changes(Change::LoadTable),
    },
    // `check-table`
    Form {
        word: b"check-table",
        kinds: &[],
        request: Request::Replies(Call::CheckTable),
    },
    // `greatest ROOM`
    Form {
        word: b"greatest",
        kinds: &[Kind::Room],
        request: Request::Replies(Call::Greatest),
    },
    // `load-packet STATION HOPS`
    Form {
        word: b"load-packet",
        kinds: &[Kind::Place, Kind::Hops],
        request: Request::Changes(Change::LoadPacket),
    },
    // `set START`
    Form {
        word: b"set",
        kinds: &[Kind::Place],
        request: Request::Changes(Change::Set),
    },
    // `hop STATES`
    Form {
        word: b"hop",
        kinds: &[Kind::Bytes],
        request: Request::Changes(Change::Hop),
    },
    // `walk START SCHEDULE`
    Form {
        word: b"walk",
        kinds: &[Kind::Place, Kind::Bytes],
        request: Request::Replies(Call::Walk),
    },
    // `listing D ROOM`
    Form {
        word: b"listing",
        kinds: &[Kind::Place, Kind::Room],
        request: Request::Replies(Call::Listing),
    },
    // `old-stream STREAM ROOM`
    Form {
        word: b"old-stream",
        kinds: &[Kind::Bytes, Kind::Room],
        request: Request::Replies(Call::OldStream),
    },
    // `coverage`
    Form {
        word: b"coverage",
        kinds: &[],
        request: Request::Replies(Call::Coverage),
    },
    // `paths START ROOM`
    Form {
        word: b"paths",
        kinds: &[Kind::Place, Kind::Room],
        request: Request::Replies(Call::Paths),
    },
    // `import FILE`
    Form {
        word: b"import",
        kinds: &[Kind::Bytes],
        request: Request::Changes(Change::Import),
    },
    // `te VALUE`
    Form {
        word: b"te",
        kinds: &[Kind::Bytes],
        request: Request::Replies(Call::Te),
    },
];

// The first form that a line has, of these.
fn first_form<'a>(line: &[u8], forms: &'a [Form]) -> Option<&'a Form>
    ensures { FirstFound line.now forms.now result }
{
    forms
        .iter()
        .find(|f| fields::asks(line, f.word, f.kinds.len()))
}

// The form of a line, if it has one.
fn form_of(line: &[u8]) -> Option<&'static Form>
    ensures { form_said result ≡ form_for forms line.now }
{
    first_form(line, &FORMS)
}

// What a line asks. The bytes of a field are put at the start of a buffer.
pub(crate) fn asked<'a>(line: &[u8], bytes: &'a mut [u8]) -> Option<(Request, Query<'a>)>
    requires { (length line.now ≤ most_line) × (most_table ≤ length bytes.old) }
    ensures says { (h : Held) → asked_answer result h ≡ response_to h line.now }
    ensures within { IfSome result (λ a. InLimits (question_in a.1)) }
{
    let form = form_of(line)?;
    let query = asked::query_in(line, form.kinds, bytes)?;
    Some((form.request, query))
}
