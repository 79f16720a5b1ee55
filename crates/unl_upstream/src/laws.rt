//! Properties that are proved for every upstream, after any commands. The functions here do nothing at run time.
ghost use Rattle.std.specs.Prelude.{◌≡◌, List, Err, option_to_list};
ghost use Rattle.unl_delta.specs.History.{IsHistory};
ghost use Rattle.unl_base.specs.declared.draws.Draw.{Draw};
ghost use Rattle.unl_http_api.specs.declared.request.Request.{Request};
ghost use Rattle.unl_upstream.specs.declared.command.Command.{Command};
ghost use Rattle.unl_upstream.specs.declared.refusal.CommandRefusal.{CommandRefusal};
ghost use Rattle.unl_upstream.specs.Upstream.{UpstreamState, apply_command};
ghost use Rattle.unl_upstream.specs.Answer.{upstream_answer};
ghost use Rattle.unl_upstream.specs.Requests.{command_given};
ghost use Rattle.unl_upstream.specs.History.{accepted, after_command, after_commands, history_of};
ghost use Rattle.unl_upstream.specs.Kept.{KeepingCarries, KeepingContinues};
ghost use Rattle.unl_upstream.specs.KeptLinks.{KeptLinksNameCommands};
ghost use Rattle.unl_upstream.specs.Reopening.{ReopeningGivesBack};
ghost use Rattle.unl_upstream.specs.Laws.{EnvironmentsStay, VersionsMatchHistory};
ghost use Rattle.unl_upstream.specs.Laws.{VersionsBelongToLines};

/// After any commands, each environment's version represents the history of the commands accepted for that environment.
/// The version's number is their count, and its epoch is the one that the upstream was created with. So the version
/// belongs to the line (a list with one history for each epoch) that has only this history.
pub fn versions_match_history()
    ensures history { (commands : List Command) → IsHistory (history_of commands) }
    ensures represents { VersionsMatchHistory }
    ensures lines { VersionsBelongToLines }
{}

/// After any commands, an environment has a version exactly if the upstream was created with this environment.
pub fn environments_stay()
    ensures { EnvironmentsStay }
{}

/// A refused command changes nothing. So applying only the accepted commands leads to the same state, and all of them
/// are accepted again.
pub fn refused_changes_nothing()
    ensures one { (command : Command) (up : UpstreamState) (refusal : CommandRefusal) → apply_command command up ≡ Err refusal
        → after_command command up ≡ up }
    ensures others { (commands : List Command) (up : UpstreamState) → after_commands (accepted commands up) up
        ≡ after_commands commands up }
    ensures again { (commands : List Command) (up : UpstreamState) → accepted (accepted commands up) up ≡ accepted commands up }
{}

/// Answering a request has the effect of the command that the request gives, if it gives one. No command changes the
/// secret.
pub fn requests_give_commands()
    ensures one { (up : UpstreamState) (q : Request) (draw : Draw) → (upstream_answer up q draw).up
        ≡ after_commands (option_to_list (command_given up.secret q)) up }
    ensures secret { (command : Command) (up : UpstreamState) → (after_command command up).secret ≡ up.secret }
{}

/// Any attempts to keep commands, with any faults of the keeper, preserve this: the upstream has the state that the
/// kept commands lead to, and at most one row, left by a failed put, follows the kept rows. Only the acknowledged
/// commands are added to the kept ones. Attempts made in order, and others made in order after them, are together
/// attempts made in order.
pub fn keeping_carries()
    ensures carries { KeepingCarries }
    ensures continues { KeepingContinues }
{}

/// Reopening a keeper with observable rows, for an initial upstream of the same environments and epoch, restores the
/// kept commands. It may also restore one more command, whose put failed after the last successful put. Only a fault of
/// the keeper or running out of memory can prevent this.
pub fn reopening_gives_back()
    ensures { ReopeningGivesBack }
{}

/// Serving links with an upstream that keeps its commands changes its state only by the kept commands of the answered
/// requests, in order. Its keeper keeps one more row for each of these commands. Each answered request takes one draw,
/// and a link on which memory ran out may take one more.
pub fn kept_links_name_commands()
    ensures { KeptLinksNameCommands }
{}
