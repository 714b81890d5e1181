//! What a reply does at its client: counted or not, and deciding when the round is complete.
ghost use Rattle.std.specs.Prelude.{◌≡◌, ◌&&◌, if◌then◌else◌, ◌==◌};
ghost use Rattle.quorum.specs.declared.decide.Decided.{Decided};
ghost use Rattle.client.specs.Hear.{awaited, uncounted, joined, tallied, quorum_of, knowing, phase_by, shown_by, completed, completion, ended_as, heard, heard_answer, is_complete};
ghost use Rattle.client.specs.Client.{in_phase};

use crate::client::{Client, Phase};
use orders::answer::{Answer, Ending};
use quorum::decide::{Decided, Verdict, decide};
use settings::checked::Checked;
use wire::kind::Kind;
use wire::message::Message;

// The answer of a call that ends.
fn ended(client: u8, version: u32, value: i32, rounds: u8) -> Answer
    ensures { result ≡ ended_as client version value rounds }
{
    Answer::Ended(Ending {
        client,
        version,
        value,
        rounds,
    })
}

impl Phase {
    // Counts a reply of the awaited kind, once per replica, in place.
    // Inlined, as `is_complete` and `hear` are, so that a carry counts a reply with no call between.
    #[inline(always)]
    fn count(&mut self, m: Message) -> bool
        ensures said { result ≡ (m.kind == awaited self.old && uncounted self.old m) }
        ensures after { self.new ≡ (if result then joined self.old m else self.old) }
    {
        match (self, Kind::try_from(m.kind)) {
            (Phase::Writing(receipts), Ok(Kind::WriteReply)) => receipts.add(m.into()),
            (Phase::Asking(readings), Ok(Kind::ReadReply)) => readings.add(m.into()),
            (Phase::Telling(receipts), Ok(Kind::TellReply)) => receipts.add(m.into()),
            (Phase::Idle | Phase::Due, _) => false,
            (Phase::Writing(_) | Phase::Asking(_) | Phase::Telling(_), _) => false,
        }
    }

    // Is the round complete?
    #[inline(always)]
    fn is_complete(&self, k: &Checked) -> bool
        ensures { result ≡ is_complete k.now self.now }
    {
        match self {
            Phase::Writing(receipts) => receipts.count() >= usize::from(k.replicas - k.tolerated),
            Phase::Asking(readings) => readings.count() >= usize::from(k.replicas - k.tolerated),
            Phase::Telling(receipts) => receipts.count() >= usize::from(2 * k.tolerated + 1),
            Phase::Idle | Phase::Due => true,
        }
    }
}

impl Client {
    // Takes what a first round decided.
    fn conclude(&mut self, who: u8, d: Decided) -> Answer
        ensures after { self.new ≡ knowing self.old d (phase_by d.verdict) }
        ensures said { result ≡ shown_by d.verdict who d }
    {
        self.version = d.version;
        self.value = d.value;
        self.previous = d.previous;
        match d.verdict {
            Verdict::Highest => {
                self.phase = Phase::Idle;
                ended(who, d.version, d.value, 1)
            }
            Verdict::Due => {
                self.phase = Phase::Due;
                Answer::BecameDue(who)
            }
            Verdict::Previous => {
                self.phase = Phase::Idle;
                ended(who, d.version.saturating_sub(1), d.previous, 1)
            }
        }
    }

    // Ends a write or a tell.
    fn rest(&mut self, who: u8, rounds: u8) -> Answer
        ensures after { self.new ≡ in_phase self.old Phase.Idle }
        ensures said { result ≡ ended_as who self.old.version self.old.value rounds }
    {
        self.phase = Phase::Idle;
        ended(who, self.version, self.value, rounds)
    }

    // The round is complete.
    fn complete(&mut self, k: &Checked, who: u8) -> Answer
        ensures after { self.new ≡ completed k.now self.old }
        ensures said { result ≡ completion k.now who self.old }
    {
        match &self.phase {
            Phase::Asking(readings) => {
                let d = decide(k, readings.held());
                self.conclude(who, d)
            }
            Phase::Writing(_) => self.rest(who, 1),
            Phase::Telling(_) => self.rest(who, 2),
            Phase::Idle | Phase::Due => Answer::Ignored(who),
        }
    }

    // One reply.
    #[inline(always)]
    pub fn hear(&mut self, k: &Checked, m: Message) -> Answer
        ensures after { self.new ≡ heard k.now self.old m }
        ensures said { result ≡ heard_answer k.now self.old m }
    {
        if m.round != self.round || !self.phase.count(m) {
            return Answer::Ignored(m.client);
        }
        if !self.phase.is_complete(k) {
            return Answer::Counted(m.client);
        }
        self.complete(k, m.client)
    }
}
