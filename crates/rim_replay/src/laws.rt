//! Laws for readers of the definitions, proved.
ghost use Rattle.std.specs.Prelude.{◌≡◌, ◌≤◌, ℕ, true, List, Ok, Option, Some, option_map};
ghost use Rattle.std.specs.List.{All};
ghost use Rattle.rim_desc.specs.declared.command.Command.{Command};
ghost use Rattle.rim_desc.specs.declared.measurement.Algo.{Algo};
ghost use Rattle.rim_desc.specs.declared.rec.TheConstants.{AUX_LIMIT};
ghost use Rattle.rim_desc.specs.declared.rule.RecRule.{RecRule};
ghost use Rattle.rmm_model.specs.Run.{accepted, run};
ghost use Rattle.rmm_model.specs.State.{empty_state};
ghost use Rattle.rmi_line.specs.Ends.{listing_text};
ghost use Rattle.rmi_line.specs.Typed.{Are64Bytes, IsTyped};
ghost use Rattle.rim_replay.specs.Replay.{ReplayAnswer};

/// The listing of commands that a monitor takes all, by a rule of its RECs or without one, with the algorithm and the
/// measurement of the realm that it has then, comes to yes.
pub fn a_true_listing_is_confirmed()
    ensures { (num_aux : ℕ) (rule : Option RecRule) (commands : List Command)
        (algo : Algo) (rim : List ℕ)
        → num_aux ≤ AUX_LIMIT
        → All IsTyped commands
        → Are64Bytes rim
        → accepted (empty_state num_aux rule) commands ≡ true
        → option_map (λ p. p.algo) (run (empty_state num_aux rule) commands).params ≡ Some algo
        → (run (empty_state num_aux rule) commands).rim ≡ Some rim
        → ReplayAnswer (listing_text num_aux rule commands algo rim) (Ok tt) }
{}
