//! The laws, worked by hand on a few calls each. The functions do nothing: their contracts are what
//! comes of the calls, and that a law's premises hold of them.

ghost use Rattle.std.specs.Prelude.{◌≡◌, ◌*◌, pos, false, [], ◌∷◌, Some, None, map, codes};
ghost use Rattle.module_network.specs.Dropper.{dropper_script};
ghost use Rattle.module_network.specs.L2Queue.{l2_queue_script};
ghost use Rattle.module_network.specs.Receiver.{receiver_script};
ghost use Rattle.module_network.specs.Sender.{sender_script};
ghost use Rattle.network_laws.specs.Examples.{dropper_calls, dropped_pattern, l2_queue_calls};
ghost use Rattle.network_laws.specs.Examples.{receiver_calls, second, sender_calls};
ghost use Rattle.network_laws.specs.Line.{ComeInTime, HasDatarate, after_turns, unused};
ghost use Rattle.network_laws.specs.Lost.{HasPattern};
ghost use Rattle.network_laws.specs.Played.{Each, emitted, left_by, sent_through, turns};
ghost use Rattle.network_laws.specs.Window.{HasWindow, frames_acked};

/// Frames 0, 1, 1, 3 and 2 come: 0, 1 and 2 are taken.
pub fn a_receiver_takes_three()
    ensures taken { emitted (codes "received") (turns receiver_script receiver_calls)
        ≡ pos 0 ∷ pos 1 ∷ pos 2 ∷ [] }
    ensures others { emitted (codes "discarded") (turns receiver_script receiver_calls)
        ≡ pos 1 ∷ pos 3 ∷ [] }
    ensures waits_for { (left_by receiver_script receiver_calls).taken.first ≡ 3 }
{}

/// Of three messages the second is lost.
pub fn a_dropper_loses_one()
    ensures told { Each (HasPattern dropped_pattern false) dropper_calls }
    ensures sent { map (λ m. m.kind)
        (sent_through (codes "out") (turns dropper_script dropper_calls))
        ≡ pos 7 ∷ pos 9 ∷ [] }
{}

/// With a window of two, frames 0 and 1 go; when the first is acknowledged, 2; and 1 and 2 again.
pub fn a_sender_keeps_two_out()
    ensures told { Each (HasWindow 2) sender_calls }
    ensures sent { emitted (codes "sent") (turns sender_script sender_calls)
        ≡ pos 0 ∷ pos 1 ∷ pos 2 ∷ [] }
    ensures resent { emitted (codes "resent") (turns sender_script sender_calls)
        ≡ pos 1 ∷ pos 2 ∷ [] }
    ensures acked { frames_acked (turns sender_script sender_calls) ≡ 1 }
{}

/// Two messages of 8 bits come at once to a line of 8 bits per second: the second one goes a second
/// later, as the first one's transmission ends, and is transmitted till two seconds.
pub fn an_l2_queue_sends_two()
    ensures told { Each (HasDatarate 8) l2_queue_calls }
    ensures in_time { ComeInTime 8 unused (turns l2_queue_script l2_queue_calls) }
    ensures busy { emitted (codes "busy") (turns l2_queue_script l2_queue_calls)
        ≡ pos 1 ∷ pos 0 ∷ [] }
    ensures line { after_turns 8 (turns l2_queue_script l2_queue_calls) unused
        ≡ record { time = 2 * second; due = None; busy_until = Some (2 * second) } }
{}
