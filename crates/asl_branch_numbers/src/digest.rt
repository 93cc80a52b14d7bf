// Digests, by which things are looked up. What is the same has one digest; nothing rests on that but speed.
use asl_history::Place;
use asl_json::{Json, Txt};
use asl_step::{Record, Uses};

/// A digest in the making.
#[derive(Clone, Copy)]
pub struct Digest {
    bits: u64,
}

/// More levels than any value has.
const LEVELS: u32 = u32::MAX;

/// So many bytes of a text are taken in at once.
const PIECE: usize = 8;

/// A word of at most eight bytes.
fn word_of(bytes: &[u8]) -> u64 {
    let mut word = 0_u64;
    for byte in bytes {
        word = word.rotate_left(8) ^ u64::from(*byte);
    }
    word
}

impl Digest {
    /// The digest of nothing.
    pub fn empty() -> Digest {
        Digest { bits: 0 }
    }

    /// Its bits.
    pub fn bits(self) -> u64 {
        self.bits
    }

    /// One more word.
    pub fn word(self, word: u64) -> Digest {
        Digest {
            bits: (self.bits.rotate_left(5) ^ word).wrapping_mul(0x517c_c1b7_2722_0a95),
        }
    }

    /// One more text.
    fn text(self, text: &str) -> Digest {
        let mut digest = self.word(text.len() as u64);
        for piece in text.as_bytes().chunks(PIECE) {
            digest = digest.word(word_of(piece));
        }
        digest
    }

    /// One more value, with so many levels of it.
    fn value(self, value: &Json, levels: u32) -> Digest {
        if levels == 0 {
            return self;
        }
        match value {
            Json::Null => self.word(1),
            Json::Bool(value) => self.word(if *value { 2 } else { 3 }),
            Json::Num(number) => self.word(4).text(number.spelling()),
            Json::Text(text) => self.word(5).text(text.as_str()),
            Json::List(items) => {
                let mut digest = self.word(6).word(items.len() as u64);
                for item in items.values() {
                    digest = digest.value(item, levels - 1);
                }
                digest
            }
            Json::Dict(members) => {
                let mut digest = self.word(7).word(members.members().len() as u64);
                for member in members.members() {
                    digest = digest
                        .text(member.key.as_str())
                        .value(&member.value, levels - 1);
                }
                digest
            }
        }
    }

    /// What a branch is doing.
    fn record(self, record: &Record) -> Digest {
        match record {
            Record::New { state, input } => self.word(1).entry(state.as_str(), input),
            Record::Ready { state, input } => self.word(2).entry(state.as_str(), input),
            Record::Pausing {
                state,
                input,
                until,
                ..
            } => self
                .word(3)
                .entry(state.as_str(), input)
                .word(until.millis()),
            Record::Again {
                state,
                input,
                uses,
                until,
                ..
            } => self
                .word(4)
                .entry(state.as_str(), input)
                .used(uses)
                .word(until.millis()),
            Record::Forked {
                state,
                input,
                uses,
                ..
            } => self.word(5).entry(state.as_str(), input).used(uses),
            Record::Done(output) => self.word(6).value(output, LEVELS),
            Record::Failed(error) => self.word(7).named(&error.error).named(&error.cause),
        }
    }

    /// A text, where there is one.
    fn named(self, text: &Option<Txt>) -> Digest {
        match text {
            Some(text) => self.word(8).text(text.as_str()),
            None => self.word(9),
        }
    }

    /// How often each retrier was used.
    fn used(self, uses: &Uses) -> Digest {
        let mut digest = self;
        for count in &uses.counts {
            digest = digest.word(u64::from(*count));
        }
        digest
    }

    /// A state and its raw input.
    fn entry(self, state: &str, input: &Json) -> Digest {
        self.text(state).value(input, LEVELS)
    }
}

/// The digest of what the branch at a place is doing.
pub(crate) fn digest_of(place: &Place, held: &Record) -> u64 {
    let mut digest = Digest::empty();
    for number in place.numbers() {
        digest = digest.word(u64::from(*number));
    }
    digest.record(held).bits
}
