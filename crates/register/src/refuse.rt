//! Why a call is sent back: the first refusal that fits, tried in rising order of the numbers.
ghost use Rattle.std.specs.Prelude.{◌≡◌, ◌<◌, IfOk};
ghost use Rattle.settings.specs.Limits.{replicas_max, clients_max};
ghost use Rattle.settings.specs.Fault.{FailsBy};
ghost use Rattle.client.specs.Start.{kind_of};
ghost use Rattle.register.specs.Refuse.{write_refusal, read_refusal, tell_refusal, reader_refusal, room_refusal, replica_out_refusal, client_out_refusal};

use crate::register::Register;
use crate::send::has_room;
use client::client::Phase;
use client::start::Round;
use orders::answer::Refusal;
use settings::limits::ROUNDS_MAX;
use settings::range::value_in_range;
use wire::channel::Channel;

// A reader's or client's number that passes is given back as one byte, which indexes the table.
impl Register {
    pub(crate) fn check_write<C: Channel>(&self, c: &C, value: i32) -> Result<(), Refusal>
        ensures { FailsBy result (write_refusal self.now (C.contents c.now).free value) }
    {
        let writer = &self.clients[0];
        if writer.out {
            return Err(Refusal::Withdrawn);
        }
        if !matches!(writer.phase, Phase::Idle) {
            return Err(Refusal::Busy);
        }
        if !value_in_range(value) {
            return Err(Refusal::ValueRange);
        }
        if writer.round >= ROUNDS_MAX {
            return Err(Refusal::RoundLimit);
        }
        self.check_room(c, Round::Write(value))
    }

    pub(crate) fn check_read<C: Channel>(&self, c: &C, reader: u32) -> Result<u8, Refusal>
        ensures said { FailsBy result (read_refusal self.now (C.contents c.now).free reader) }
        ensures same { IfOk result (λ who. (who ≡ reader) × (who < clients_max)) }
    {
        let who = self.check_reader(reader)?;
        let client = &self.clients[usize::from(who)];
        if !matches!(client.phase, Phase::Idle) {
            return Err(Refusal::Busy);
        }
        if client.round >= ROUNDS_MAX {
            return Err(Refusal::RoundLimit);
        }
        self.check_room(c, Round::Read(who))?;
        Ok(who)
    }

    pub(crate) fn check_tell<C: Channel>(&self, c: &C, reader: u32) -> Result<u8, Refusal>
        ensures said { FailsBy result (tell_refusal self.now (C.contents c.now).free reader) }
        ensures same { IfOk result (λ who. (who ≡ reader) × (who < clients_max)) }
    {
        let who = self.check_reader(reader)?;
        if !matches!(self.clients[usize::from(who)].phase, Phase::Due) {
            return Err(Refusal::NotDue);
        }
        self.check_room(c, Round::Tell(who))?;
        Ok(who)
    }

    // Has the channel a free place for each message of the round?
    fn check_room<C: Channel>(&self, c: &C, round: Round) -> Result<(), Refusal>
        ensures { FailsBy result (room_refusal self.now.settings (C.contents c.now).free (kind_of round)) }
    {
        if has_room(c, round.count(&self.settings)) {
            Ok(())
        } else {
            Err(Refusal::NoRoom)
        }
    }

    pub(crate) fn check_replica_out(&self, replica: u32) -> Result<usize, Refusal>
        ensures said { FailsBy result (replica_out_refusal self.now replica) }
        ensures same { IfOk result (λ i. (i ≡ replica) × (i < replicas_max)) }
    {
        if replica >= u32::from(self.settings.replicas) {
            return Err(Refusal::Unknown);
        }
        let i = replica as usize;
        if self.out[i] {
            return Err(Refusal::AlreadyOut);
        }
        if self.outs >= self.settings.tolerated {
            return Err(Refusal::OutLimit);
        }
        Ok(i)
    }

    pub(crate) fn check_client_out(&self, client: u32) -> Result<u8, Refusal>
        ensures said { FailsBy result (client_out_refusal self.now client) }
        ensures same { IfOk result (λ who. (who ≡ client) × (who < clients_max)) }
    {
        if client > u32::from(self.settings.readers) {
            return Err(Refusal::Unknown);
        }
        let who = client as u8;
        if self.clients[usize::from(who)].out {
            return Err(Refusal::Withdrawn);
        }
        Ok(who)
    }

    // A reader that is known and not out.
    fn check_reader(&self, reader: u32) -> Result<u8, Refusal>
        ensures said { FailsBy result (reader_refusal self.now reader) }
        ensures same { IfOk result (λ who. (who ≡ reader) × (who < clients_max)) }
    {
        if reader == 0 {
            return Err(Refusal::Unknown);
        }
        self.check_client_out(reader)
    }
}
