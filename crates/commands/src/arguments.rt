// The words of a call, each read as what the call wants there.
ghost use Rattle.std.specs.Prelude.{◌≡◌, ℕ, ◌-◌, ◌^◌, ◌<◌, [], ◌∷◌, Result};
ghost use Rattle.std.proofs.Common.{lit<};
ghost use Rattle.std.specs.declared.num.TryFromIntError.{TryFromIntError};
ghost use Rattle.script.specs.Split.{split};
ghost use Rattle.message.specs.Messages.{statements, requests};
ghost use Rattle.commands.specs.Calls.{bytes, number, room, fields};
ghost use Rattle.commands.specs.Numerals.{Converts, converts};
ghost use Rattle.commands.specs.Asked.{statement_values, request_values, unread, OrBad, ReadsWord, Reads, ReadsMessage, ReadsCall, Asks, AskForNoCall};

use crate::names::{CallName, message_named};
use crate::{Call, Fault};
use hex_words::unhex;
use message::kind::Kind;
use message::{Message, Request, Statement, Strike};
use script::numbers::decimal;
use script::words::Words;
use std::alloc::Global;
use std::num::TryFromIntError;

// The most bytes that a script may ask a buffer to have.
const MOST_ROOM: usize = 1024;

// A type of number that a word may give, by the largest that it holds. Each states what std's conversion to it gives.
trait Numeral: TryFrom<u64, Error = TryFromIntError> {
    ghost most: { ℕ };

    ghost value: { Self → ℕ };

    ghost within: { most < 2 ^ 64 };

    ghost converts: { (n : ℕ) (r : Result Self TryFromIntError) → Self.try_from_gives n r → Converts most value n r };
}

impl Numeral for u8 {
    ghost most = { 2 ^ 8 - 1 };

    ghost value = { λ n. n };

    ghost within = { lit< tt };

    ghost converts = { converts 8 };
}

impl Numeral for u16 {
    ghost most = { 2 ^ 16 - 1 };

    ghost value = { λ n. n };

    ghost within = { lit< tt };

    ghost converts = { converts 16 };
}

impl Numeral for u32 {
    ghost most = { 2 ^ 32 - 1 };

    ghost value = { λ n. n };

    ghost within = { lit< tt };

    ghost converts = { converts 32 };
}

impl Numeral for usize {
    ghost most = { 2 ^ 64 - 1 };

    ghost value = { λ n. n };

    ghost within = { lit< tt };

    ghost converts = { converts 64 };
}

#[derive(Drop)]
pub(crate) struct Arguments<'a> {
    heap: Global,
    words: Words<'a>,
}

impl<'a> Arguments<'a> {
    pub(crate) fn new(heap: Global, line: &'a [u8]) -> Arguments<'a>
        ensures { unread result ≡ split line.now }
    {
        Arguments {
            heap,
            words: Words::new(line),
        }
    }

    fn word(&mut self) -> Result<&'a [u8], Fault>
        ensures { OrBad result (λ word. unread self.old ≡ word.now ∷ unread self.new) (unread self.old ≡ []) }
    {
        self.words.next().ok_or(Fault::BadLine)
    }

    fn bytes(&mut self) -> Result<Vec<u8>, Fault>
        ensures { ReadsWord bytes (λ v. v.items) self.old result self.new }
    {
        unhex(self.heap, self.word()?)?.ok_or(Fault::BadLine)
    }

    fn number<N: Numeral>(&mut self) -> Result<N, Fault>
        ensures { ReadsWord (number N.most) N.value self.old result self.new }
    {
        let number = decimal(self.word()?, u64::MAX).ok_or(Fault::BadLine)?;
        N::try_from(number).map_err(|_| Fault::BadLine)
    }

    #[tactic(auto, using(crate::proofs::Giving::passes, crate::proofs::Giving::none_smaller))]
    fn room(&mut self) -> Result<usize, Fault>
        ensures { ReadsWord room (λ n. n) self.old result self.new }
    {
        match self.number()? {
            room if room <= MOST_ROOM => Ok(room),
            _ => Err(Fault::BadLine),
        }
    }

    #[tactic(auto, using(crate::proofs::Giving::passes, crate::proofs::Giving::none_first, crate::proofs::Giving::none_later))]
    fn statement(&mut self) -> Result<Statement<Vec<u8>>, Fault>
        ensures { Reads (fields statements) statement_values self.old result self.new }
    {
        Ok(Statement {
            serial: self.number()?,
            from: self.number()?,
            until: self.number()?,
            sayer: self.bytes()?,
            left: self.bytes()?,
            right: self.bytes()?,
        })
    }

    #[tactic(auto, using(crate::proofs::Giving::passes, crate::proofs::Giving::none_first, crate::proofs::Giving::none_later))]
    fn request(&mut self) -> Result<Request<Vec<u8>>, Fault>
        ensures { Reads (fields requests) request_values self.old result self.new }
    {
        Ok(Request {
            number: self.number()?,
            object: self.number()?,
            operation: self.number()?,
            sayer: self.bytes()?,
        })
    }

    fn message(&mut self) -> Result<Message<Vec<u8>>, Fault>
        ensures { ReadsMessage self.old result self.new }
    {
        match message_named(self.word()?)? {
            Kind::Statement => Ok(Message::Statement(self.statement()?)),
            Kind::Strike => Ok(Message::Strike(Strike {
                serial: self.number()?,
            })),
            Kind::Request => Ok(Message::Request(self.request()?)),
        }
    }

    fn named(&mut self) -> Result<Call, Fault>
        ensures { ReadsCall self.old result self.new }
    {
        match CallName::try_from(self.word()?)? {
            CallName::Term => Ok(Call::Term(self.bytes()?)),
            CallName::Message => Ok(Call::Message(self.bytes()?)),
            CallName::Show => Ok(Call::Show(self.bytes()?)),
            CallName::Write => Ok(Call::Write {
                message: self.message()?,
                room: self.room()?,
            }),
        }
    }

    // A call, with no word after it.
    pub(crate) fn call(mut self) -> Result<Call, Fault>
        ensures { OrBad result (Asks (unread self.entry)) (AskForNoCall (unread self.entry)) }
    {
        let call = self.named()?;
        match self.words.next() {
            Some(_) => Err(Fault::BadLine),
            None => Ok(call),
        }
    }
}
