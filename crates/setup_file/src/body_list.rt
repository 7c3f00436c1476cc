use setup_keys::KeyName;

/// A list of bodies: its key and those of its bodies, how few and how many bodies it may have, and whether it has to be there.
#[derive(Clone, Copy)]
pub(crate) struct BodyList {
    pub(crate) key: KeyName,
    pub(crate) box_key: KeyName,
    pub(crate) planes_key: KeyName,
    pub(crate) least: u32,
    pub(crate) most: u32,
    pub(crate) required: bool,
}

pub(crate) const STOCK: BodyList = BodyList {
    key: KeyName::Stock,
    box_key: KeyName::StockBox,
    planes_key: KeyName::StockPlanes,
    least: 1,
    most: 16,
    required: true,
};

pub(crate) const PART: BodyList = BodyList {
    key: KeyName::Part,
    box_key: KeyName::PartBox,
    planes_key: KeyName::PartPlanes,
    least: 0,
    most: 64,
    required: false,
};

pub(crate) const FIXTURE: BodyList = BodyList {
    key: KeyName::Fixture,
    box_key: KeyName::FixtureBox,
    planes_key: KeyName::FixturePlanes,
    least: 0,
    most: 64,
    required: false,
};
