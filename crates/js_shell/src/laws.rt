//! The laws of runs on bytes, and of replies.

ghost use Rattle.js_shell.specs.Promises.{IsIsolating, IsNeverStopped, RepliesOnce};

use low_equal::{declared, erasure, two_runs};

/// Isolation: two monitored runs that finish, on inputs that agree for an observer, write the same view.
pub fn isolation()
    ensures { IsIsolating }
{
    two_runs();
}

/// A run under a policy that declares no origin is never stopped.
pub fn never_stopped()
    ensures { IsNeverStopped }
{
    erasure();
    declared();
}

/// Words over files have one reply at most.
pub fn replies_once()
    ensures { RepliesOnce }
{}
