//! The fields of a card.

ghost use Rattle.std.specs.Prelude.{◌≡◌};
ghost use Rattle.zac_archfile.specs.Fields.{key_of, name_of, is_zone_list, is_in_range_of, range_of};

/// A field of a card, or of one of its zones.
///
/// They stand in the order in which faults are told. Lengths are in tenths of a micrometre, and times in nanoseconds.
#[derive(Clone, Copy, Debug, PartialEq, Eq)]
pub enum Field {
    /// The form of the card: 1.
    Version,
    /// The least distance of neighbouring rows, and of neighbouring columns, of one AOD: 1 to 100,000.
    Gap,
    /// How far a beam is parked from the place that it keeps clear of: 1 to 100,000.
    Park,
    /// The distance within which a crossing touches a trap or another crossing: 0 to 100,000.
    Reach,
    /// The blockade radius: 1 to 100,000.
    Radius,
    /// The acceleration of a beam, in metres per second squared: 100 to 1,000,000.
    Accel,
    /// How long beams take to switch on: 1 to 1,000,000,000.
    Activate,
    /// How long beams take to switch off: 1 to 1,000,000,000.
    Deactivate,
    /// How long a one-qubit gate takes: 1 to 1,000,000,000.
    One,
    /// How long a pulse takes: 1 to 1,000,000,000.
    Pulse,
    /// How long a readout takes: 1 to 1,000,000,000.
    Readout,
    /// The number of AODs: 1 to 8.
    Aods,
    /// The most row beams of one AOD: 1 to 64.
    Rows,
    /// The most column beams of one AOD: 1 to 64.
    Columns,
    /// The list of storage zones.
    Storage,
    /// The x of a storage zone's first trap: 0 to 1,000,000.
    StorageX,
    /// The y of a storage zone's first trap: 0 to 1,000,000.
    StorageY,
    /// The distance of a storage zone's columns: 1 to 1,000,000.
    StorageDx,
    /// The distance of a storage zone's rows: 1 to 1,000,000.
    StorageDy,
    /// The number of a storage zone's columns: 1 to 65,536.
    StorageColumns,
    /// The number of a storage zone's rows: 1 to 65,536.
    StorageRows,
    /// The list of entangling zones.
    Entangling,
    /// The x of an entangling zone's first trap: 0 to 1,000,000.
    EntanglingX,
    /// The y of an entangling zone's first trap: 0 to 1,000,000.
    EntanglingY,
    /// The distance of the columns of an entangling zone's sites: 1 to 1,000,000.
    EntanglingDx,
    /// The distance of the rows of an entangling zone's sites: 1 to 1,000,000.
    EntanglingDy,
    /// How far the right trap of a site is from the left one: 1 to 1,000,000.
    EntanglingPair,
    /// The number of the columns of an entangling zone's sites: 1 to 65,536.
    EntanglingColumns,
    /// The number of the rows of an entangling zone's sites: 1 to 65,536.
    EntanglingRows,
}

/// The fields of the card's own object that are numbers.
pub(crate) const FIGURE_FIELDS: [Field; 14] = [
    Field::Version,
    Field::Gap,
    Field::Park,
    Field::Reach,
    Field::Radius,
    Field::Accel,
    Field::Activate,
    Field::Deactivate,
    Field::One,
    Field::Pulse,
    Field::Readout,
    Field::Aods,
    Field::Rows,
    Field::Columns,
];

/// The fields of the card's own object.
pub(crate) const TOP_FIELDS: [Field; 16] = [
    Field::Version,
    Field::Gap,
    Field::Park,
    Field::Reach,
    Field::Radius,
    Field::Accel,
    Field::Activate,
    Field::Deactivate,
    Field::One,
    Field::Pulse,
    Field::Readout,
    Field::Aods,
    Field::Rows,
    Field::Columns,
    Field::Storage,
    Field::Entangling,
];

/// The fields of a storage zone.
pub(crate) const STORAGE_FIELDS: [Field; 6] = [
    Field::StorageX,
    Field::StorageY,
    Field::StorageDx,
    Field::StorageDy,
    Field::StorageColumns,
    Field::StorageRows,
];

/// The fields of an entangling zone.
pub(crate) const ENTANGLING_FIELDS: [Field; 7] = [
    Field::EntanglingX,
    Field::EntanglingY,
    Field::EntanglingDx,
    Field::EntanglingDy,
    Field::EntanglingPair,
    Field::EntanglingColumns,
    Field::EntanglingRows,
];

impl Field {
    /// The key that the field has in its object.
    pub(crate) fn key(&self) -> &'static str
        ensures { result.now ≡ key_of self.now }
    {
        match self {
            Field::Version => "version",
            Field::Gap => "gap",
            Field::Park => "park",
            Field::Reach => "reach",
            Field::Radius => "radius",
            Field::Accel => "accel",
            Field::Activate => "activate",
            Field::Deactivate => "deactivate",
            Field::One => "one",
            Field::Pulse => "pulse",
            Field::Readout => "readout",
            Field::Aods => "aods",
            Field::Storage => "storage",
            Field::Entangling => "entangling",
            Field::Rows | Field::StorageRows | Field::EntanglingRows => "rows",
            Field::Columns | Field::StorageColumns | Field::EntanglingColumns => "columns",
            Field::StorageX | Field::EntanglingX => "x",
            Field::StorageY | Field::EntanglingY => "y",
            Field::StorageDx | Field::EntanglingDx => "dx",
            Field::StorageDy | Field::EntanglingDy => "dy",
            Field::EntanglingPair => "pair",
        }
    }

    /// Whether it is a list of zones, and no number.
    pub(crate) fn is_list(self) -> bool
        ensures { result ≡ is_zone_list self }
    {
        matches!(self, Field::Storage | Field::Entangling)
    }

    /// The least and the greatest number that the field may have. A list of zones has no number.
    fn range(self) -> (u64, u64)
        ensures least { result.0 ≡ (range_of self).least }
        ensures most { result.1 ≡ (range_of self).most }
    {
        match self {
            Field::Version => (1, 1),
            Field::Gap | Field::Park | Field::Radius => (1, 100_000),
            Field::Reach => (0, 100_000),
            Field::Accel => (100, 1_000_000),
            Field::Activate | Field::Deactivate | Field::One | Field::Pulse | Field::Readout => {
                (1, 1_000_000_000)
            }
            Field::Aods => (1, 8),
            Field::Rows | Field::Columns => (1, 64),
            Field::StorageX | Field::StorageY | Field::EntanglingX | Field::EntanglingY => {
                (0, 1_000_000)
            }
            Field::StorageDx | Field::StorageDy => (1, 1_000_000),
            Field::EntanglingDx | Field::EntanglingDy | Field::EntanglingPair => (1, 1_000_000),
            Field::StorageColumns | Field::StorageRows => (1, 65_536),
            Field::EntanglingColumns | Field::EntanglingRows => (1, 65_536),
            Field::Storage | Field::Entangling => (0, 0),
        }
    }

    /// Whether the number lies in the field's range.
    pub(crate) fn admits(self, n: u64) -> bool
        ensures { result ≡ is_in_range_of self n }
    {
        let (least, most) = self.range();
        least <= n && n <= most
    }

    /// The name that faults tell: the key, and before it, for a zone's field, the key of the zone's list and a point, as
    /// `gap` and `storage.dx`.
    pub fn name(&self) -> &'static str
        ensures { result.now ≡ name_of self.now }
    {
        match self {
            Field::Version => "version",
            Field::Gap => "gap",
            Field::Park => "park",
            Field::Reach => "reach",
            Field::Radius => "radius",
            Field::Accel => "accel",
            Field::Activate => "activate",
            Field::Deactivate => "deactivate",
            Field::One => "one",
            Field::Pulse => "pulse",
            Field::Readout => "readout",
            Field::Aods => "aods",
            Field::Rows => "rows",
            Field::Columns => "columns",
            Field::Storage => "storage",
            Field::StorageX => "storage.x",
            Field::StorageY => "storage.y",
            Field::StorageDx => "storage.dx",
            Field::StorageDy => "storage.dy",
            Field::StorageColumns => "storage.columns",
            Field::StorageRows => "storage.rows",
            Field::Entangling => "entangling",
            Field::EntanglingX => "entangling.x",
            Field::EntanglingY => "entangling.y",
            Field::EntanglingDx => "entangling.dx",
            Field::EntanglingDy => "entangling.dy",
            Field::EntanglingPair => "entangling.pair",
            Field::EntanglingColumns => "entangling.columns",
            Field::EntanglingRows => "entangling.rows",
        }
    }
}
