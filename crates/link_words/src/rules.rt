// What each rule says, in words.
use faults::Refusal;

/// A sentence for people; tools go by the number.
pub fn rule_words(rule: Refusal) -> &'static str {
    match rule {
        Refusal::NotAtThisStage => "this call is not allowed at this stage of the link",
        Refusal::TooManyModules => "there are more than 4096 modules",
        Refusal::TooManyRecords => "there are more than 32768 records",
        Refusal::MarksTooShort => "there are fewer mark rows than modules",
        Refusal::WorkTooShort => "a work slice is too short",
        Refusal::RuntimeNotEsm => "the runtime is not a normal module scanned as ESM",
        Refusal::TargetPastEnd => "a record leads past the last module",
        Refusal::StyleImportOfNormal => "an at-import or url-import leads to a normal module",
        Refusal::StarMisplaced =>
            "a star stands on another record than an import of a module scanned as ESM",
        Refusal::RuntimeRequired => "the runtime is required",
        Refusal::TooManyEntries => "there are more than 64 entry modules",
        Refusal::ResultsTooShort => "the list of results is too short",
        Refusal::WrongLength => "the image has another length than it says",
        Refusal::WrongBlockHead => "a block has the wrong length or kind",
        Refusal::FieldOutOfValues =>
            "a field is outside its values, or an external module is not blank",
        Refusal::WrongFirstRecord =>
            "the records of a module do not begin where those before it end",
        Refusal::LayerFull => "there are more than 64 modules to make external",
        Refusal::RowPastSource => "an observer or importer is past the last module",
    }
}
