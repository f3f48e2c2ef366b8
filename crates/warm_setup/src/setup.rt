//! The setup file: the sizes of the world, and the devices of its replicas.
//!
//! A setup is a TOML document. Every key is optional: `buffer` (1 to 1024), `device` (an array of
//! 1 to 16 tables), `frames` (1 to 65536), `page_size` (1 to 65536), `replicas` (1 to 64) and
//! `workers` (1 to 16). A device's table has `pages` (1 to 1048576), which it must have, and
//! perhaps `path`, a text of at least one byte.

ghost use Rattle.std.specs.Prelude.{◌≡◌, ◌≤◌, ◌<◌, ℕ, IfOk, IfErr, Some, None, Ok, Err, map};
ghost use Rattle.std.specs.List.{list_all};
ghost use Rattle.std.specs.Str.{IsUtf8};
ghost use Rattle.toml.specs.Parse.{parse_document};
ghost use Rattle.toml.specs.View.{view, table_view};
ghost use Rattle.warm_world.specs.Limits.{IsWithin};
ghost use Rattle.warm_setup.specs.SetupFaults.{GivesMeaning, code_of, name_of};
ghost use Rattle.warm_setup.specs.Setups.{number_to, text_in, with_device_key, device_in};
ghost use Rattle.warm_setup.specs.Setups.{devices_of, devices_in, with_key, setup_of, setup_in};
ghost use Rattle.warm_setup.specs.Setups.{key_by_key, no_fields, each, is_table, defaults};
ghost use Rattle.warm_setup.specs.SetupView.{device_fields_of, settings_of, setup_and_devices};
ghost use Rattle.warm_setup.specs.SetupView.{AreWithin};

use crate::path::PathText;
use std::alloc::{AllocError, AllocFailed, Global};
use thiserror::Error;
use toml::{Table, Value};
use warm_devices::MAX_PAGE_SIZE;
use warm_rank::MAX_FRAMES;
use warm_refbuffer::MAX_CAPACITY;
use warm_stamps::MAX_REPLICAS;
use warm_world::{MAX_WORKERS, Setup};

/// A device that each replica is to have: `pages` pages (1 to 1048576), kept in memory, or in the
/// file that `path`, a dot and the replica's number name.
#[derive(Debug, Drop)]
pub struct DeviceSpec {
    pub pages: u32,
    pub path: Option<PathText>,
}

/// Why a text is not a setup.
#[derive(Clone, Copy, Debug, PartialEq, Eq, Drop, Error)]
pub enum SetupFault {
    /// An allocation failed. It says nothing about the text.
    #[error("Memory")]
    Memory,
    /// The text is not a TOML document.
    #[error("NotToml")]
    NotToml,
    /// An unknown key, a value of a wrong type, or a device without `pages`.
    #[error("BadKey")]
    BadKey,
    /// A number out of its range, an empty `path`, no device or more than 16.
    #[error("BadValue")]
    BadValue,
}

impl SetupFault {
    /// The fault's number, 1 to 4 in the order above.
    pub fn code(self) -> u8
        ensures { result ≡ code_of self }
    {
        match self {
            SetupFault::Memory => 1,
            SetupFault::NotToml => 2,
            SetupFault::BadKey => 3,
            SetupFault::BadValue => 4,
        }
    }

    /// The fault's name, as the program prints it.
    pub fn name(self) -> &'static str
        ensures { result.now ≡ name_of self }
    {
        match self {
            SetupFault::Memory => "Memory",
            SetupFault::NotToml => "NotToml",
            SetupFault::BadKey => "BadKey",
            SetupFault::BadValue => "BadValue",
        }
    }
}

impl From<AllocError> for SetupFault {
    ghost use Rattle.std.specs.Prelude.{◌≡◌};
    ghost use Rattle.warm_setup.specs.declared.setup.SetupFault.TheVariants.{Memory};

    ghost from_gives = { λ _ fault. fault ≡ Memory };

    fn from(_error: AllocError) -> SetupFault {
        SetupFault::Memory
    }
}

impl<T: Drop> From<AllocFailed<T>> for SetupFault {
    ghost use Rattle.std.specs.Prelude.{◌≡◌};
    ghost use Rattle.warm_setup.specs.declared.setup.SetupFault.TheVariants.{Memory};

    ghost from_gives = { λ _ fault. fault ≡ Memory };

    fn from(_failed: AllocFailed<T>) -> SetupFault {
        SetupFault::Memory
    }
}

impl From<toml::de::Error> for SetupFault {
    ghost use Rattle.warm_setup.specs.SetupFaults.{IsTomlFault};

    ghost from_gives = { IsTomlFault };

    fn from(error: toml::de::Error) -> SetupFault {
        if error.is_memory() {
            return SetupFault::Memory;
        }
        SetupFault::NotToml
    }
}

/// The maximum number of devices of a replica.
pub const MAX_LISTED_DEVICES: usize = 16;

/// The maximum number of pages of a device.
pub const MAX_PAGES: u32 = 1_048_576;

// An integer from 1 to the limit.
#[tactic(auto, unfolding(crate::specs::Setups::number_to))]
fn number(value: &Value, limit: u32) -> Result<u32, SetupFault>
    ensures value { result ≡ number_to limit (view value.now) }
    ensures within { IfOk result (IsWithin limit) }
{
    let Some(number) = value.as_integer() else {
        return Err(SetupFault::BadKey);
    };
    if number < 1 || number > i64::from(limit) {
        return Err(SetupFault::BadValue);
    }
    Ok(number as u32)
}

// A text of at least one byte.
#[tactic(auto, unfolding(crate::specs::Setups::text_in))]
fn path_in(alloc: Global, value: &Value) -> Result<PathText, SetupFault>
    ensures { GivesMeaning (λ p. p) (text_in (view value.now)) result }
{
    let Some(text) = value.as_str() else {
        return Err(SetupFault::BadKey);
    };
    if text.is_empty() {
        return Err(SetupFault::BadValue);
    }
    Ok(PathText::copied_from(alloc, text)?)
}

// The fields of a device's table read so far.
#[derive(Drop)]
struct DeviceKeys {
    pages: Option<u32>,
    path: Option<PathText>,
}

// The fields with the value of one key.
#[tactic(auto, unfolding(crate::specs::Setups::with_device_key))]
fn set_device_key(
    alloc: Global,
    keys: DeviceKeys,
    key: &str,
    value: &Value,
) -> Result<DeviceKeys, SetupFault>
    ensures { GivesMeaning device_fields_of
        (with_device_key (device_fields_of keys) key.now (view value.now)) result }
{
    if key == "pages" {
        let pages = number(value, MAX_PAGES)?;
        return Ok(DeviceKeys {
            pages: Some(pages),
            path: keys.path,
        });
    }
    if key == "path" {
        let path = path_in(alloc, value)?;
        return Ok(DeviceKeys {
            pages: keys.pages,
            path: Some(path),
        });
    }
    Err(SetupFault::BadKey)
}

fn device_keys(alloc: Global, table: &Table) -> Result<DeviceKeys, SetupFault>
    ensures { GivesMeaning device_fields_of
        (key_by_key with_device_key no_fields (table_view table.now)) result }
{
    let mut keys = DeviceKeys {
        pages: None,
        path: None,
    };
    for (key, value) in table {
        keys = set_device_key(alloc, keys, key.as_str(), value)?;
    }
    Ok(keys)
}

#[tactic(auto, unfolding(crate::specs::Setups::device_in))]
fn device(alloc: Global, value: &Value) -> Result<DeviceSpec, SetupFault>
    ensures { GivesMeaning (λ d. d) (device_in (view value.now)) result }
{
    let Some(table) = value.as_table() else {
        return Err(SetupFault::BadKey);
    };
    let keys = device_keys(alloc, table)?;
    let Some(pages) = keys.pages else {
        return Err(SetupFault::BadKey);
    };
    Ok(DeviceSpec {
        pages,
        path: keys.path,
    })
}

// Each device in turn, up to the first fault.
fn each_device(alloc: Global, values: &[Value]) -> Result<Vec<DeviceSpec>, SetupFault>
    ensures { GivesMeaning (λ devices. devices.items)
        (each device_in (map view values.now)) result }
{
    let mut devices = Vec::new(alloc);
    for value in values {
        devices.push(device(alloc, value)?)?;
    }
    Ok(devices)
}

fn are_tables(values: &[Value]) -> bool
    ensures { result ≡ list_all (λ value. is_table (view value)) values.now }
{
    values.iter().all(|value| value.is_table())
}

// The types are checked first, then the number of devices, then each device.
fn devices_of(alloc: Global, values: &[Value]) -> Result<Vec<DeviceSpec>, SetupFault>
    ensures { GivesMeaning (λ devices. devices.items) (devices_of (map view values.now)) result }
{
    if !are_tables(values) {
        return Err(SetupFault::BadKey);
    }
    if values.is_empty() || values.len() > MAX_LISTED_DEVICES {
        return Err(SetupFault::BadValue);
    }
    each_device(alloc, values)
}

#[tactic(auto, unfolding(crate::specs::Setups::devices_in))]
fn devices(alloc: Global, value: &Value) -> Result<Vec<DeviceSpec>, SetupFault>
    ensures { GivesMeaning (λ devices. devices.items) (devices_in (view value.now)) result }
{
    let Some(values) = value.as_array() else {
        return Err(SetupFault::BadKey);
    };
    devices_of(alloc, values.as_slice())
}

// The settings so far.
#[derive(Drop)]
struct SetupKeys {
    buffer: u16,
    devices: Vec<DeviceSpec>,
    frames: u32,
    page_size: u32,
    replicas: u16,
    workers: u16,
}

// The settings with the value of one key.
#[tactic(auto, unfolding(crate::specs::Setups::with_key))]
fn set_key(
    alloc: Global,
    keys: SetupKeys,
    key: &str,
    value: &Value,
) -> Result<SetupKeys, SetupFault>
    ensures value { GivesMeaning settings_of (with_key (settings_of keys) key.now (view value.now))
        result }
    ensures within { AreWithin keys → IfOk result AreWithin }
{
    if key == "buffer" {
        let buffer = number(value, MAX_CAPACITY as u32)? as u16;
        return Ok(SetupKeys { buffer, ..keys });
    }
    if key == "device" {
        let devices = devices(alloc, value)?;
        return Ok(SetupKeys { devices, ..keys });
    }
    if key == "frames" {
        let frames = number(value, MAX_FRAMES as u32)?;
        return Ok(SetupKeys { frames, ..keys });
    }
    if key == "page_size" {
        let page_size = number(value, MAX_PAGE_SIZE as u32)?;
        return Ok(SetupKeys { page_size, ..keys });
    }
    if key == "replicas" {
        let replicas = number(value, u32::from(MAX_REPLICAS))? as u16;
        return Ok(SetupKeys { replicas, ..keys });
    }
    if key == "workers" {
        let workers = number(value, u32::from(MAX_WORKERS))? as u16;
        return Ok(SetupKeys { workers, ..keys });
    }
    Err(SetupFault::BadKey)
}

// The settings of a table: the defaults, and then its keys in their order.
fn setup_keys(alloc: Global, table: &Table) -> Result<SetupKeys, SetupFault>
    ensures value { GivesMeaning settings_of (setup_of (table_view table.now)) result }
    ensures within { IfOk result AreWithin }
{
    let mut keys = SetupKeys {
        buffer: 64,
        devices: one_device(alloc)?,
        frames: 4,
        page_size: 16,
        replicas: 3,
        workers: 2,
    };
    for (key, value) in table {
        keys = set_key(alloc, keys, key.as_str(), value)?;
    }
    Ok(keys)
}

// The devices of a setup that names none.
fn one_device(alloc: Global) -> Result<Vec<DeviceSpec>, SetupFault>
    ensures value { IfOk result (λ devices. devices.items ≡ defaults.devices) }
    ensures memory { IfErr result (λ fault. fault ≡ SetupFault.Memory) }
{
    let mut devices = Vec::new(alloc);
    let device = DeviceSpec {
        pages: 256,
        path: None,
    };
    devices.push(device)?;
    Ok(devices)
}

// The setup and the devices that the settings name.
fn setup_of_keys(keys: SetupKeys) -> (Setup, Vec<DeviceSpec>)
    requires { AreWithin keys }
    ensures { setup_and_devices result ≡ settings_of keys }
{
    match Setup::new(
        keys.replicas,
        keys.workers,
        keys.buffer,
        keys.frames,
        keys.page_size,
    ) {
        Ok(setup) => (setup, keys.devices),
        Err(_) => unreachable!(),
    }
}

/// The setup and the devices that a text means: each key's value, or its default if the text
/// lacks the key.
///
/// Keys are read in the order of their bytes, the devices of `device` in their order, and a
/// device's keys in the order of their bytes, its missing `pages` last; the first fault is
/// returned. For one key [`SetupFault::BadKey`] comes before [`SetupFault::BadValue`]. For `device`
/// the types of the array and its elements come first, then its length, then its devices.
/// [`SetupFault::NotToml`] is returned only if the text is not a TOML document (TOML 1.1, nested
/// at most 80 deep), and [`SetupFault::Memory`] only if an allocation failed, which can be
/// before any fault of the text is found.
pub fn read_setup(alloc: Global, text: &str) -> Result<(Setup, Vec<DeviceSpec>), SetupFault>
    ensures { GivesMeaning setup_and_devices (setup_in (parse_document text.now)) result }
{
    let table = toml::table_from_str(alloc, text)?;
    let keys = setup_keys(alloc, &table)?;
    Ok(setup_of_keys(keys))
}

/// The setup that a file's bytes hold: [`read_setup`] of the text if they are UTF-8, else
/// [`SetupFault::NotToml`].
pub fn read_setup_file(alloc: Global, bytes: &[u8]) -> Result<(Setup, Vec<DeviceSpec>), SetupFault>
    ensures text { IsUtf8 bytes.now
        → GivesMeaning setup_and_devices (setup_in (parse_document bytes.now)) result }
    ensures no_text { ¬ IsUtf8 bytes.now → result ≡ Err SetupFault.NotToml }
{
    match std::str::from_utf8(bytes) {
        Ok(text) => read_setup(alloc, text),
        Err(_) => Err(SetupFault::NotToml),
    }
}
