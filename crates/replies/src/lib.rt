// What a job's text is answered with: its cutting list, or the line that tells its refusal.
#![tactic(auto)]

ghost use Rattle.replies.specs.Replies.{OneReply};

pub mod job_text;
pub mod printing;

// A text has one reply.
pub fn one_reply()
    ensures { OneReply }
{}
