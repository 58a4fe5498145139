//! The laws of the numbers' text. The functions do nothing; their contracts are laws, proved for all
//! reports.

ghost use Rattle.std.specs.Prelude.{◌≡◌, ℕ, Some, length, slice_get};
ghost use Rattle.gw_report.specs.declared.count.Column.{Column};
ghost use Rattle.gw_report.specs.declared.count.Single.{Single};
ghost use Rattle.gw_report.specs.declared.numbers.Numbers.{Numbers};
ghost use Rattle.gw_report.specs.declared.numbers.TheConstants.{SINGLES, COLUMNS};
ghost use Rattle.gw_page.specs.Expositions.{exposition_of};
ghost use Rattle.gw_page.specs.Lines.{IsExposition};

/// Whatever a report has in it, the numbers' text is lines of a name, a label and a number, and
/// lines that explain a name. So no report makes a line that is something else.
pub fn only_numbers()
    ensures { (numbers : Numbers) → IsExposition (exposition_of numbers) }
{}

/// The text goes through two lists of names. Each of the 27 names without a label stands in the one,
/// each of the 11 of a link in the other, and nothing else does: so each stands there once.
pub fn all_names()
    ensures singles { (single : Single) → (place : ℕ) × (slice_get SINGLES place ≡ Some single) }
    ensures columns { (column : Column) → (place : ℕ) × (slice_get COLUMNS place ≡ Some column) }
    ensures few { (length SINGLES ≡ 27) × (length COLUMNS ≡ 11) }
{}
