// What every refusal says: which rule is broken, which layer found it, and where.
#![tactic(auto)]

ghost use Rattle.std.specs.Prelude.{◌≡◌, Some};
ghost use Rattle.faults.specs.Faults.{refusal_number, layer_name, fault, fault_text};

use std::fmt;

/// A broken rule, with the number under which it is known outside.
#[derive(Clone, Copy, PartialEq, Eq, Debug)]
pub enum Refusal {
    /// 1: the link's stage does not allow this call.
    NotAtThisStage = 1,
    /// 2: more than 4,096 modules.
    TooManyModules = 2,
    /// 3: more than 32,768 records.
    TooManyRecords = 3,
    /// 4: fewer mark rows than modules.
    MarksTooShort = 4,
    /// 5: fewer arrows than records, or another work slice shorter than the modules.
    WorkTooShort = 5,
    /// 6: the runtime is not a normal module scanned as ESM.
    RuntimeNotEsm = 6,
    /// 7: a record's target, or an arrow's end, past the end.
    TargetPastEnd = 7,
    /// 8: `AtImport` or `UrlImport` to a normal module.
    StyleImportOfNormal = 8,
    /// 9: a star that is not on an `Import` of a module scanned as ESM.
    StarMisplaced = 9,
    /// 10: the runtime is required.
    RuntimeRequired = 10,
    /// 11: more than 64 entry modules.
    TooManyEntries = 11,
    /// 12: the result list is too short.
    ResultsTooShort = 12,
    /// 13: an image of another length than it says, or a slice too short for it.
    WrongLength = 13,
    /// 14: a block's length or kind is wrong.
    WrongBlockHead = 14,
    /// 15: a field outside its values, or an external module that is not blank.
    FieldOutOfValues = 15,
    /// 16: a module's records do not begin where those of the one before end.
    WrongFirstRecord = 16,
    /// 17: a 65th different number for a layer of external modules.
    LayerFull = 17,
    /// 18: an observer or importer past the source's end.
    RowPastSource = 18,
}

impl From<Refusal> for u8 {
    ghost from_gives = { λ rule number. number ≡ refusal_number rule };

    fn from(rule: Refusal) -> u8 {
        rule as u8
    }
}

/// The layer that found a fault.
#[derive(Clone, Copy, PartialEq, Eq, Debug)]
pub enum Layer {
    Card,
    Source,
    Link,
    Interop,
}

impl fmt::Display for Layer {
    ghost output = { λ l. Some (layer_name l) };

    fn fmt<W: fmt::Write>(&self, f: &mut fmt::Formatter<W>) -> fmt::Result {
        f.write_str(self.name())
    }
}

impl Refusal {
    /// A fault of this rule.
    pub fn found_by(self, layer: Layer, at: usize, record: usize) -> Fault
        ensures { result ≡ fault self layer at «record» }
    {
        Fault {
            refusal: self,
            layer,
            place: Place { at, record },
        }
    }
}

impl Layer {
    // By cases: a word is no number that a discriminant could be.
    pub fn name(self) -> &'static str
        ensures { result.now ≡ layer_name self }
    {
        match self {
            Layer::Card => "card",
            Layer::Source => "source",
            Layer::Link => "link",
            Layer::Interop => "interop",
        }
    }
}

/// The place that a fault names: a module, a row or a byte, and a record of that module; 0 where none is named.
#[derive(Clone, Copy, PartialEq, Eq, Debug)]
pub struct Place {
    pub at: usize,
    pub record: usize,
}

#[derive(Clone, Copy, PartialEq, Eq, Debug)]
pub struct Fault {
    pub refusal: Refusal,
    pub layer: Layer,
    pub place: Place,
}

/// As `number=14 layer=card place=40,0`.
impl fmt::Display for Fault {
    ghost output = { λ f. Some (fault_text f) };

    fn fmt<W: fmt::Write>(&self, f: &mut fmt::Formatter<W>) -> fmt::Result {
        let number = u8::from(self.refusal);
        let layer = self.layer;
        let at = self.place.at;
        let record = self.place.record;
        write!(f, "number={number} layer={layer} place={at},{record}")
    }
}
