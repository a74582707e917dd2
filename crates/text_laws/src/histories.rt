//! Laws of the lines of a history: each function is empty, and its clauses are the laws.

ghost use Rattle.text_laws.specs.NameLaws.{AllAreLongest};
ghost use Rattle.text_laws.specs.WrittenLines.{ActsAreRead, CollectionsAreRead, PostsAreRead, ReturnsAreRead, SeatsAreRead};

/// A law: a line in its form is read as it was meant, whatever the names of the hand, if its player's
/// name is no other seat's. The other conditions are:
///
/// - If a line begins with the name, no longer name of the hand is at its beginning with the same
///   words after it.
/// - Before the first street the line is neither a seat line nor that of the button.
/// - A return or a collection doesn't begin with a name and a colon. A collection also begins neither
///   as a deal nor as a return.
/// - After the chips of a seat line ` in chips` doesn't come again.
///
/// Amounts are written as [`crate::law_written_amounts_are_read`] says.
pub fn law_written_lines_are_read()
    ensures acts { ActsAreRead }
    ensures posts { PostsAreRead }
    ensures returned { ReturnsAreRead }
    ensures collected { CollectionsAreRead }
    ensures seats { SeatsAreRead }
{}

/// A law: the name found at the beginning of a text fits there, and no name that fits is longer. None
/// is found only if none fits.
pub fn law_the_longest_name_counts()
    ensures { AllAreLongest }
{}
