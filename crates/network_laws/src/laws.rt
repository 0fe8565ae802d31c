//! What modules do over a list of calls. The functions do nothing: their contracts are the laws.

ghost use Rattle.std.specs.Prelude.{◌≡◌, ◌+◌, ◌<◌, ◌≤◌, ℕ, Bool, List, length, codes};
ghost use Rattle.sim_time.specs.Time.{greatest};
ghost use Rattle.module_api.specs.declared.call.Call.{Call};
ghost use Rattle.module_parts.specs.Numbers.{limit};
ghost use Rattle.channels.specs.Travel.{duration_of};
ghost use Rattle.module_network.specs.declared.sender.Sender.{Sender};
ghost use Rattle.module_network.specs.Dropper.{is_lost, dropper_script};
ghost use Rattle.module_network.specs.L2Queue.{l2_queue_script, line_time};
ghost use Rattle.module_network.specs.Library.{library};
ghost use Rattle.module_network.specs.Receiver.{receiver_script};
ghost use Rattle.module_network.specs.Sender.{sender_script};
ghost use Rattle.network_laws.specs.Line.{ComeInTime, HasDatarate, NeverFindBusy, unused};
ghost use Rattle.network_laws.specs.Lost.{HasPattern, kept_from, lost_from, messages_heard};
ghost use Rattle.network_laws.specs.Played.{Each, emitted, left_by, sent_through, turns};
ghost use Rattle.network_laws.specs.Played.{turns_of_kind};
ghost use Rattle.network_laws.specs.Taken.{TakesWhatComes, counted};
ghost use Rattle.network_laws.specs.Window.{HasWindow, KnowsWhatComes, SendsWhatIsOut};
ghost use Rattle.network_laws.specs.Window.{frames_acked, frames_sent};

/// A Receiver takes frames 0, 1, 2, .. in this order, each of them once, whatever it is called for:
/// the numbers that it emits as `received` are just these, as many as it counts in its state. So it
/// is for up to 2^63 - 1 calls. And what it takes is what comes: each number that it emits is that
/// of the frame of that very call.
pub fn frames_are_taken_in_order()
    ensures order { (calls : List Call) → length calls < limit
        → emitted (codes "received") (turns receiver_script calls)
        ≡ counted (left_by receiver_script calls).taken.first }
    ensures own { (calls : List Call) → Each TakesWhatComes (turns receiver_script calls) }
{}

/// A Dropper loses just the messages that its pattern marks: where each call tells the same pattern
/// and the same `repeat`, it sends on all messages that come, in order, but for those whose place
/// among them, from 0 on, is marked; and of these it emits their places as `dropped`, counted from
/// 1. So it is for up to 2^63 - 1 calls.
pub fn marked_messages_are_lost()
    ensures sent { (pattern : List ℕ) (repeat : Bool) (calls : List Call) → length calls < limit
        → Each (HasPattern pattern repeat) calls
        → sent_through (codes "out") (turns dropper_script calls)
        ≡ kept_from (is_lost pattern repeat) 0 (messages_heard calls) }
    ensures lost { (pattern : List ℕ) (repeat : Bool) (calls : List Call) → length calls < limit
        → Each (HasPattern pattern repeat) calls
        → emitted (codes "dropped") (turns dropper_script calls)
        ≡ lost_from (is_lost pattern repeat) 0 (messages_heard calls) }
{}

/// A Sender is never more than its window ahead of what is acknowledged: it has sent at most that
/// many frames more than it knows to have arrived, whatever it is called for. The window may change
/// from call to call: the greatest one counts. It emits as `sent` the numbers 0, 1, 2, .., each of
/// them once; its state holds how many were sent and how many are acknowledged, and the latter
/// changes by an acknowledgement alone, to the number in it. Each message that it sends, for the
/// first time or again, has a frame that is sent and not acknowledged, and the numbers of these
/// frames are those that it emits.
pub fn windows_are_kept()
    ensures window { (window : ℕ) (calls : List Call) → Each (HasWindow window) calls
        → frames_sent (turns sender_script calls)
        ≤ frames_acked (turns sender_script calls) + window }
    ensures sent { (calls : List Call) → emitted (codes "sent") (turns sender_script calls)
        ≡ counted (left_by sender_script calls).sent.second }
    ensures acked { (calls : List Call) → frames_acked (turns sender_script calls)
        ≡ (left_by sender_script calls).sent.first }
    ensures heard { (s : Sender) (call : Call) → KnowsWhatComes s call }
    ensures out { (calls : List Call) (call : Call) → call.time ≤ greatest
        → SendsWhatIsOut (left_by sender_script calls) call }
{}

/// An L2Queue whose datarate is that of the channel behind it never finds the channel busy: it
/// sends each message at a time at which the transmission of the one before it is over, be it at
/// that very time. So it is for any calls that come as those of a run do: none earlier than the one
/// before, and its timer at just the time for which it was set. How long it takes a transmission to
/// be is how long the channel takes.
pub fn lines_are_never_busy()
    ensures time { (bits rate : ℕ) → duration_of bits rate ≤ greatest
        → line_time bits rate ≡ duration_of bits rate }
    ensures free { (rate : ℕ) (calls : List Call) → Each (HasDatarate rate) calls
        → ComeInTime rate unused (turns l2_queue_script calls)
        → NeverFindBusy rate unused (turns l2_queue_script calls) }
{}

/// In the catalogue of the modules that come with the program, each of these four kinds goes by its
/// script: to any list of calls, from its state at first on, it gives the same replies. So what the
/// laws say of scripts they say of the modules, whose states are bytes.
pub fn kinds_go_by_their_scripts()
    ensures receiver { (calls : List Call)
        → turns_of_kind library (codes "Receiver") calls ≡ turns receiver_script calls }
    ensures sender { (calls : List Call)
        → turns_of_kind library (codes "Sender") calls ≡ turns sender_script calls }
    ensures dropper { (calls : List Call)
        → turns_of_kind library (codes "Dropper") calls ≡ turns dropper_script calls }
    ensures l2_queue { (calls : List Call)
        → turns_of_kind library (codes "L2Queue") calls ≡ turns l2_queue_script calls }
{}
