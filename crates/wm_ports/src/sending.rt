//! Sending all of some bytes.
ghost use Rattle.std.specs.Prelude.{◌≡◌, ◌≤◌, IfErr, OnErr, OnOk, length};
ghost use Rattle.wm_defs.specs.Counts.{Rose};
ghost use Rattle.wm_ports.specs.Linking.{SendsAll, SendsPart};
ghost use Rattle.wm_ports.specs.declared.links.SendFault.TheVariants as faults;

use crate::links::{Link, SendFault};

/// Sends all of the bytes, in as many sendings as it takes. Where one takes nothing, a first part of the bytes was sent.
pub fn send_all<L: Link>(link: &mut L, bytes: &[u8]) -> Result<(), SendFault>
    ensures ok { OnOk result (SendsAll (L.told link.old) (L.told link.new) bytes.now) }
    ensures part { OnErr result (SendsPart (L.told link.old) (L.told link.new) bytes.now) }
    ensures failed { IfErr result (λ e. e ≡ faults.Failed → Rose (L.faults link.old) (L.faults link.new)) }
    ensures grown { L.faults link.old ≤ L.faults link.new }
{
    let mut at = 0;
    while at < bytes.len() {
        at += link.send(&bytes[at..])?;
    }
    Ok(())
}
