//! What every shard keeps, for those who read the definitions, over the windows of any kind of work.
ghost use Rattle.cq_shard.specs.Laws as law;

use crate::indexed::Indexed;

/// A shard that has applied nothing stands for any changes.
pub fn it_stands_at_first<W: Indexed>()
    ensures { law.WithAllSettings W.Indexed law.StandsAtFirst }
{}

/// A shard that stands for some changes stands for them and any later ones.
pub fn it_stands_on<W: Indexed>()
    ensures { law.WithAllSettings W.Indexed law.StandsOn }
{}

/// The entries that it answers with are those that it should hold of the changes.
pub fn it_answers_what_it_holds<W: Indexed>()
    ensures { law.WithAllSettings W.Indexed law.AnswersWhatItHolds }
{}

/// What a shard holds for what it has applied depends on no later event.
pub fn shards_stay<W: Indexed>()
    ensures { law.WithAllSettings W.Indexed law.ShardsStay }
{}

/// Applying the next change keeps what a shard holds, and adds only the rows of that change.
pub fn applying_adds_its_rows<W: Indexed>()
    ensures { law.WithAllSettings W.Indexed law.ApplyingAddsItsRows }
{}

/// Raising the floor adds nothing to what a shard holds, and takes out what a change up to it supersedes.
pub fn sweeping_takes_out_alone<W: Indexed>()
    ensures { law.WithAllSettings W.Indexed law.SweepingTakesOutAlone }
{}

/// Of the changes that it stands for, a shard knows each put that a floor keeps which is no lower than its own and no
/// higher than what it has applied.
pub fn it_knows_what_is_kept<W: Indexed>()
    ensures { law.WithAllSettings W.Indexed law.KnowsWhatIsKept }
{}

/// Swept up to a new floor, except for the puts that this keeps, a shard stands for the changes that it stood for.
pub fn it_stands_swept<W: Indexed>()
    ensures { law.WithAllSettings W.Indexed law.StandsSwept }
{}
