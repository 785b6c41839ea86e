// Contents of packets of the RehaMove3, written (request 13; source 002, sections 2.2 and 4).
#![tactic(auto)]

mod contents;

ghost use Rattle.std.specs.Prelude.{◌≡◌, option_map};
ghost use Rattle.encode3.specs.Encoded.{encoded};

use arrayvec::ArrayVec;
use commands3::Message;

// The content that a message makes under a packet number, where it may be written.
#[tactic(auto, unfolding(crate::specs::Encoded::encoded))]
pub fn encode(packet: u8, m: Message) -> Option<ArrayVec<u8, 67>>
    ensures { option_map (λ v. v.items) result ≡ encoded packet m }
{
    if (packet <= 63) & values3::good(m) {
        Some(contents::content(packet, m))
    } else {
        None
    }
}
