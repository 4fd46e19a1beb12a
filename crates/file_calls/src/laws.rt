ghost use Rattle.std.specs.Prelude.{◌≡◌, ℕ, ◌≤◌, List, Some, true, length};
ghost use Rattle.seal_core.specs.Blocks.{AreBytes};
ghost use Rattle.file_calls.specs.declared.call.Call.{Call};
ghost use Rattle.file_calls.specs.declared.call.Reply.{Reply};
ghost use Rattle.file_calls.specs.Spelling.{call_text, is_call, call_of, reply_text, is_reply, reply_of};

/// Each call has one spelling, of at most 5,632 bytes, and no other bytes read as it.
pub fn calls_have_one_spelling()
    ensures back { (call : Call) → is_call call ≡ true → call_of (call_text call) ≡ Some call }
    ensures call { (bytes : List ℕ) (call : Call) → call_of bytes ≡ Some call
        → is_call call ≡ true }
    ensures text { (bytes : List ℕ) (call : Call) → call_of bytes ≡ Some call
        → bytes ≡ call_text call }
    ensures bytes { (call : Call) → is_call call ≡ true → AreBytes (call_text call) }
    ensures short { (call : Call) → is_call call ≡ true → length (call_text call) ≤ 5632 }
{}

/// Each reply has one spelling, of at most 5,632 bytes, and no other bytes read as it.
pub fn replies_have_one_spelling()
    ensures back { (reply : Reply) → is_reply reply ≡ true
        → reply_of (reply_text reply) ≡ Some reply }
    ensures reply { (bytes : List ℕ) (reply : Reply) → reply_of bytes ≡ Some reply
        → is_reply reply ≡ true }
    ensures text { (bytes : List ℕ) (reply : Reply) → reply_of bytes ≡ Some reply
        → bytes ≡ reply_text reply }
    ensures bytes { (reply : Reply) → is_reply reply ≡ true → AreBytes (reply_text reply) }
    ensures short { (reply : Reply) → is_reply reply ≡ true → length (reply_text reply) ≤ 5632 }
{}
