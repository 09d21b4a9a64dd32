// The walk over the records.
#![tactic(auto)]

ghost use Rattle.std.specs.Prelude.{◌≡◌, length, Err};
ghost use Rattle.paper.specs.TurnedAway.{refusal};
ghost use Rattle.memory.specs.Faults.{number};
ghost use Rattle.memory.specs.Starts.{Scan};

use fields::Nodes;
use heads::ends::ended;
use heads::heads::head_of;
use kinds::row_of;
use memory::{Fault, Head, Scanned};
use names::Names;
use octets::byte;
use paper::Refusal;
use table::{add_name, reserved_with};
use words::copied;

fn refused(fault: Fault, offset: usize, reserved: Names) -> Scanned
    ensures { result.verdict ≡ Err (refusal (number fault) offset) }
{
    Scanned {
        verdict: Err(Refusal {
            number: fault as u8,
            offset,
        }),
        reserved,
    }
}

// Where each node's record starts is put into the lent array.
pub fn scan_records(bytes: &[u8], starts: &mut [u16; 512]) -> Scanned
    requires { length starts.old ≡ 512 }
    ensures { Scan bytes.now result starts.new }
{
    let mut table = [[0u8; 24]; 128];
    let mut nodes = Nodes {
        kinds: [0u8; 512],
        depths: [0u8; 512],
        used: [0u8; 512],
    };
    let mut reserved = Names::empty();
    let mut at: usize = 0;
    let mut begun = false;
    let mut nn: usize = 0;
    let mut nk: usize = 0;
    // A refusal and a node's start are places in the bytes, so the walk counts them: of a slice that shrinks they would be counted beside it.
    while at < bytes.len() {
        let kind = bytes[at];
        let body = &bytes[at + 1..];
        let row = row_of(kind);
        let next = at + 1 + usize::from(row.len);
        match head_of(row, body.len(), begun, nn, nk) {
            Err(fault) => return refused(fault, at, reserved),
            Ok(Head::Format) => {
                if byte(body, 0) != 1 {
                    return refused(Fault::OtherEdition, at, reserved);
                }
                begun = true;
                at = next;
            }
            Ok(Head::Name) => {
                let n = copied(body);
                if let Err(fault) = add_name(n, &mut table, nn) {
                    return refused(fault, at, reserved);
                }
                reserved = reserved_with(reserved, n, nn);
                nn += 1;
                at = next;
            }
            Ok(Head::Node) => {
                if let Err(fault) = nodes.add(body, kind, row, nn, nk) {
                    return refused(fault, at, reserved);
                }
                starts[nk] = at as u16;
                nk += 1;
                at = next;
            }
            Ok(Head::End) => {
                return Scanned {
                    verdict: ended(body, at, nn, nk, &nodes.kinds, &nodes.used),
                    reserved,
                };
            }
        }
    }
    refused(Fault::CutShort, at, reserved)
}
