// The calls that a C program makes: numbers and byte ranges only.
#![tactic(auto)]

ghost use Rattle.std.specs.Prelude.{◌≡◌, ◌≤◌, MatchResult};
ghost use Rattle.reading.specs.Refusals.{refused};
ghost use Rattle.principal.specs.Terms.{means};
ghost use Rattle.message.specs.Messages.{read_message, any_kind, statements, strikes, requests};
ghost use Rattle.message.specs.Said.{said};
ghost use Rattle.writer.specs.Writing.{drafted, write_answer, buffer_after};
ghost use Rattle.capi.specs.Calls.{range, size, told, layer_told, place_told, ReadTold, WrittenTold};

use message::kind::Kind;
use message::{Message, Request, Statement, Strike};
use principal::term::Term;
use reading::refusal::{Layer, ReadFault, Refusal};
use writer::write;

// A part of the message: where it starts, and how long it is. C takes no slice in a struct.
#[repr(C)]
#[derive(Clone, Copy, Default)]
pub struct GateRange {
    pub start: usize,
    pub len: usize,
}

// A message that was read. Fields that its kind does not have are 0. C takes the kind as a number.
#[repr(C)]
#[derive(Clone, Copy, Default)]
pub struct GateMessage {
    pub kind: u32,
    pub serial: u32,
    pub from: u32,
    pub until: u32,
    pub number: u32,
    pub object: u32,
    pub operation: u32,
    pub sayer: GateRange,
    pub left: GateRange,
    pub right: GateRange,
}

// Why a call was refused: the layer is 1 for reading, 2 for the seal, 3 for the guard and 4 for the journal. C takes the
// layer and the number as numbers.
#[repr(C)]
#[derive(Clone, Copy)]
pub struct GateRefusal {
    pub layer: u32,
    pub number: u32,
    pub input: u32,
    pub start: usize,
    pub len: usize,
}

// C takes the layer as a number: the enum's.
fn layer_code(layer: Layer) -> u32
    ensures { result ≡ layer_told layer }
{
    layer as u32
}

impl From<ReadFault> for GateRefusal {
    ghost from_gives = { λ fault refusal. refusal ≡ place_told fault };

    fn from(fault: ReadFault) -> GateRefusal {
        let told = Refusal::from(fault);
        GateRefusal {
            layer: layer_code(told.layer),
            number: u32::from(told.number),
            input: told.place.input,
            start: told.place.start,
            len: told.place.len,
        }
    }
}

// Tells the refusal, and answers its number: C takes 0 for success and the number otherwise.
fn refuse(fault: ReadFault, refusal: &mut GateRefusal) -> u32
    ensures number { result ≡ (refused fault).number }
    ensures place { refusal.new ≡ place_told fault }
{
    *refusal = GateRefusal::from(fault);
    refusal.number
}

// Tells the answer or the refusal, and leaves the other as it was.
fn tell<T: Copy>(answer: Result<T, ReadFault>, told: &mut T, refusal: &mut GateRefusal) -> u32
    ensures { MatchResult answer (λ x. (result ≡ 0) × (told.new ≡ x) × (refusal.new ≡ refusal.old)) (λ fault. (result ≡ (refused fault).number) × (told.new ≡ told.old) × (refusal.new ≡ place_told fault)) }
{
    match answer {
        Ok(x) => {
            *told = x;
            0
        }
        Err(fault) => refuse(fault, refusal),
    }
}

#[unsafe(no_mangle)]
pub extern "C" fn gate_write_strike(
    serial: u32,
    out: &mut [u8],
    written: &mut usize,
    refusal: &mut GateRefusal,
) -> u32
    ensures answer { WrittenTold (write_answer (drafted strikes (serial, tt)) out.old) written.old written.new refusal.old refusal.new result }
    ensures buffer { out.new ≡ buffer_after (drafted strikes (serial, tt)) (write_answer (drafted strikes (serial, tt)) out.old) out.old }
{
    let strike: Message<&[u8]> = Message::Strike(Strike { serial });
    tell(write(&strike, out), written, refusal)
}

// The fields are parameters, as C passes them.
#[unsafe(no_mangle)]
pub extern "C" fn gate_write_request(
    number: u32,
    object: u16,
    operation: u8,
    sayer: &[u8],
    out: &mut [u8],
    written: &mut usize,
    refusal: &mut GateRefusal,
) -> u32
    ensures answer { WrittenTold (write_answer (drafted requests (number, (object, (operation, (sayer.now, tt))))) out.old) written.old written.new refusal.old refusal.new result }
    ensures buffer { out.new ≡ buffer_after (drafted requests (number, (object, (operation, (sayer.now, tt))))) (write_answer (drafted requests (number, (object, (operation, (sayer.now, tt))))) out.old) out.old }
{
    let request = Message::Request(Request {
        number,
        object,
        operation,
        sayer,
    });
    tell(write(&request, out), written, refusal)
}

// The fields are parameters, as C passes them.
#[unsafe(no_mangle)]
pub extern "C" fn gate_write_statement(
    serial: u32,
    from: u32,
    until: u32,
    sayer: &[u8],
    left: &[u8],
    right: &[u8],
    out: &mut [u8],
    written: &mut usize,
    refusal: &mut GateRefusal,
) -> u32
    ensures answer { WrittenTold (write_answer (drafted statements (serial, (from, (until, (sayer.now, (left.now, (right.now, tt))))))) out.old) written.old written.new refusal.old refusal.new result }
    ensures buffer { out.new ≡ buffer_after (drafted statements (serial, (from, (until, (sayer.now, (left.now, (right.now, tt))))))) (write_answer (drafted statements (serial, (from, (until, (sayer.now, (left.now, (right.now, tt))))))) out.old) out.old }
{
    let statement = Message::Statement(Statement {
        serial,
        from,
        until,
        sayer,
        left,
        right,
    });
    tell(write(&statement, out), written, refusal)
}

// The range of a term that starts at `start`.
fn range_of(start: usize, term: Term) -> GateRange
    ensures { (result ≡ range start (size (means term.entry))) × (size (means term.entry) ≤ 60) }
{
    GateRange {
        start,
        len: term.as_bytes().len(),
    }
}

impl From<Message<Term<'_>>> for GateMessage {
    ghost from_gives = { λ message m. m ≡ told (said message) };

    fn from(message: Message<Term<'_>>) -> GateMessage {
        match message {
            Message::Statement(s) => {
                let sayer = range_of(13, s.sayer);
                let left = range_of(13 + sayer.len, s.left);
                let right = range_of(13 + sayer.len + left.len, s.right);
                GateMessage {
                    kind: Kind::Statement as u32,
                    serial: s.serial,
                    from: s.from,
                    until: s.until,
                    sayer,
                    left,
                    right,
                    ..GateMessage::default()
                }
            }
            Message::Strike(s) => GateMessage {
                kind: Kind::Strike as u32,
                serial: s.serial,
                ..GateMessage::default()
            },
            Message::Request(q) => GateMessage {
                kind: Kind::Request as u32,
                number: q.number,
                object: u32::from(q.object),
                operation: u32::from(q.operation),
                sayer: range_of(8, q.sayer),
                ..GateMessage::default()
            },
        }
    }
}

#[unsafe(no_mangle)]
pub extern "C" fn gate_read(bytes: &[u8], out: &mut GateMessage, refusal: &mut GateRefusal) -> u32
    ensures { ReadTold (read_message any_kind bytes.now) out.old out.new refusal.old refusal.new result }
{
    let answer = Message::read(bytes).map(|message| GateMessage::from(message));
    tell(answer, out, refusal)
}
