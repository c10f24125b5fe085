// Lists that end earlier leave no child worse off in a round: on any register, and by the applications that may be made.
ghost use Rattle.adm_fairness.specs.ShorterLists.{NoLossByShorterList, NoLossByShorterApplication};

use adm_match_laws::no_loss;
use adm_round::allotment_fits;

/// A child without a place that lists only the first schools of its application leaves no child
/// worse off in the next round, by the same lots.
///
/// It is false of a child that leaves a list in the middle, and of one that declines its place. Of
/// the first: two places at A and at B; child 0 holds a place at A and wants B, 1 lists B, A, 2 lists
/// A, B, and 3 lists A; A ranks them 1, 0, 3, 2, and B 3, 1, 0, 2. All get what they want most. If 0
/// leaves the list of B, it stays at A, and 2 gets B, which it wants less. Of the second: one place at
/// A and one at B; child 0 lists A, B and holds the place at A, and 1 lists B, where 0 ranks before
/// it. Child 1 gets B. If 0 declines A, it wants B and gets it, and 1 has none.
pub fn no_loss_by_shorter_list()
    ensures { NoLossByShorterList }
{
    no_loss();
}

/// A child that applies for only the first schools of an application leaves no child worse off in the
/// next round than by the whole application, by the same lots; nor is the child itself worse off at the
/// schools that it still lists.
pub fn no_loss_by_shorter_application()
    ensures { NoLossByShorterApplication }
{
    allotment_fits();
    no_loss_by_shorter_list();
}
