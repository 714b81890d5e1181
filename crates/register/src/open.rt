//! Opening a register: the check, which alone may refuse, then at once the making.
ghost use Rattle.std.specs.Prelude.{◌≡◌, IfOk};
ghost use Rattle.settings.specs.Checked.{given};
ghost use Rattle.settings.specs.Fault.{FailsBy};
ghost use Rattle.register.specs.Open.{channel_fault, opening_fault, Opening};
ghost use Rattle.register.specs.Register.{opened};

use crate::fault::{ChannelFault, RegisterFault};
use crate::register::Register;
use client::client::Client;
use replica::row::Row;
use settings::checked::Checked;
use settings::given::Settings;
use settings::limits::{CLIENTS_MAX, REPLICAS_MAX};
use wire::channel::Channel;

// Is the channel empty, with a place for each replica?
fn check_channel<C: Channel>(c: &C, replicas: u32) -> Result<(), ChannelFault>
    ensures { FailsBy result (channel_fault (C.contents c.now) replicas) }
{
    if c.waiting() > 0 {
        return Err(ChannelFault::NotEmpty);
    }
    if c.free() < replicas {
        return Err(ChannelFault::TooFew);
    }
    Ok(())
}

// Settings that passed, over a channel that is fit, or the first fault.
pub(crate) fn check<C: Channel>(s: Settings, c: &C) -> Result<Checked, RegisterFault>
    ensures fault { FailsBy result (opening_fault s (C.contents c.now)) }
    ensures given { IfOk result (λ k. given k ≡ s) }
{
    let settings = Checked::try_from(s)?;
    check_channel(c, s.replicas)?;
    Ok(settings)
}

// The register of settings that passed.
pub(crate) fn make(settings: Checked) -> Register
    ensures { result ≡ opened settings }
{
    let row = Row::open(settings.initial);
    let client = Client::open(settings.initial);
    Register {
        settings,
        outs: 0,
        out: [false; REPLICAS_MAX as usize],
        rows: [row; REPLICAS_MAX as usize],
        clients: [client; CLIENTS_MAX as usize],
    }
}

impl Register {
    /// Opens a register over a channel; a fault leaves nothing behind.
    pub fn open<C: Channel>(s: Settings, c: &C) -> Result<Register, RegisterFault>
        ensures { Opening s (C.contents c.now) result }
    {
        let settings = check(s, c)?;
        Ok(make(settings))
    }
}
