//! A file, or the files of a folder, that is recorded and served, for any number of connections.
ghost use Rattle.archive_record.specs.Files.{AllKept};

use crate::filing::{Files, OneFile, Recorded, SystemReaders, fault_of};
use crate::running::Running;
use crate::sockets::Sockets;
use archive_actions::{Filing, Keeper, granted, is_folder, lock_folder, now, with_slash};
use archive_folder::{Folder, SystemFolder};
use archive_record::{ArchiveNames, Rules};
use archive_requests::{Requests, Shelf};
use disk_model::Disk;
use fault_lines::Fault;
use import_feed::Skeletons;
use ogg_command::Refusal;
use record_actions::Told;
use serve_actions::{Log, close_hub, hear_file, read_password, tell_serving};
use serve_hub::Hub;
use serve_origins::Allowed;
use station::{Options as StationOptions, Station};
use station_files::{Filed, Readers, Stations};
use std::net::SocketAddr;
use std::time::Instant;

/// What a station is asked to do.
#[derive(Clone, Copy)]
pub struct Options<'a> {
    /// The file or the folder.
    pub path: &'a str,
    /// How the files of a folder are begun and kept.
    pub filing: Filing,
    pub address: &'a str,
    /// The file of the password that connections have to know that send a stream.
    pub password_file: Option<&'a str>,
    /// The greatest number of connections.
    pub listeners: u32,
    /// The origin whose pages may read what is answered.
    pub allow_origin: Option<&'a str>,
    pub skeletons: Skeletons,
    /// Whether the file is sealed, and the station ends, once standard input has ended.
    pub seal: bool,
    /// Whether each connection gets a line on standard error.
    pub log: bool,
}

/// Records what comes into the file or the folder, which is made if there is none, and serves it to whoever connects, until
/// a fault; or until the input has ended, if the file is to be sealed then.
pub fn station(rt: &HostRuntime, options: Options<'_>) -> Result<(), Fault> {
    let Ok(address) = options.address.parse() else {
        return Err(Fault::Net);
    };
    let Ok(start) = Instant::now(rt) else {
        return Err(Fault::Net);
    };
    if is_folder(rt, options.path, options.filing) {
        folder_station(rt, options, address, start)
    } else {
        file_station(rt, options, address, start)
    }
}

/// The same over one file.
fn file_station(
    rt: &HostRuntime,
    options: Options<'_>,
    address: SocketAddr,
    start: Instant,
) -> Result<(), Fault> {
    let asked = asked_of(rt, options)?;
    let hub = hear_file(rt, options.path, options.listeners as usize)?;
    let station = station_over(rt, hub, asked)?;
    let keeper = Keeper::new(rt, "", Told::new(rt, false, station.hub().end()));
    let ended = run_at(rt, station, keeper, OneFile, address, start, options)?;
    // The connections are gone.
    let (closed, _) = close_hub(ended.hub, ended.ran);
    closed
}

/// The same over a folder.
fn folder_station(
    rt: &HostRuntime,
    options: Options<'_>,
    address: SocketAddr,
    start: Instant,
) -> Result<(), Fault> {
    let asked = asked_of(rt, options)?;
    let folder = with_slash(rt.alloc(), options.path)?;
    let folder = folder.as_str();
    let _lock = lock_folder(rt, folder)?;
    let files = granted(SystemFolder::at(rt.alloc(), rt, ArchiveNames, folder))?;
    let mut keeper = Keeper::new(rt, folder, Told::new(rt, false, 0));
    let readers = SystemReaders {
        rt,
        alloc: rt.alloc(),
        folder,
    };
    let rules = options.filing.rules(1024);
    let (hub, recorded) = open_folder(rt, files, &mut keeper, readers, rules, asked.most)?;
    let station = station_over(rt, hub, asked)?;
    let ended = run_at(rt, station, keeper, recorded, address, start, options)?;
    ended.ran?;
    let mut keeper = ended.keeper;
    let closed = ended.recorded.close(ended.hub, options.seal, &mut keeper);
    keeper.sync_ended();
    closed
}

/// Opens a folder: its newest file is recorded into, or the next one.
fn open_folder<D: Disk + Drop, F: Folder<File = D> + Drop, R: Readers<D> + Drop>(
    rt: &HostRuntime,
    folder: F,
    keeper: &mut Keeper<'_>,
    readers: R,
    rules: Rules,
    most: usize,
) -> Result<(Hub<D>, Files<F, R>), Fault>
    requires { F.is_honest folder → AllKept (F.names folder) (F.file folder) }
{
    match Filed::open(rt.alloc(), folder, rules, most, now(rt), keeper) {
        Ok((filed, hub)) => Ok((hub, Files { filed, readers })),
        Err(fault) => Err(fault_of(fault)),
    }
}

/// A station that has come to its end: how, its hub, and what it was recorded into.
#[derive(Drop)]
struct Finished<'a, D: Disk + Drop, R: Drop> {
    ran: Result<(), Fault>,
    hub: Hub<D>,
    keeper: Keeper<'a>,
    recorded: R,
}

/// Has the station listen to the address, and runs it until a fault, or until it has come to its end.
fn run_at<'a, D: Disk + Drop, R: Recorded<D> + Shelf<D> + Drop>(
    rt: &'a HostRuntime,
    station: Station<D>,
    keeper: Keeper<'a>,
    recorded: R,
    address: SocketAddr,
    start: Instant,
    options: Options<'_>,
) -> Result<Finished<'a, D, R>, Fault> {
    let allowed = allowed_by(rt, options)?;
    let sockets = listen(rt, address)?;
    let requests = granted(Requests::new(rt, keeper.folder()))?;
    let mut running = Running {
        rt,
        keeper,
        recorded,
        log: Log::new(rt.alloc(), options.log, station.counts()),
        most: options.listeners as usize,
        stations: Stations::new(rt.alloc(), station),
        sockets,
        requests,
        allowed,
        start,
        now: 0,
    };
    let ran = running.run_to_end();
    let Running {
        stations,
        keeper,
        recorded,
        ..
    } = running;
    Ok(Finished {
        ran,
        hub: stations.into_newest().into_hub(),
        keeper,
        recorded,
    })
}

/// Listens to the address, and tells where the station can be reached.
fn listen(rt: &HostRuntime, address: SocketAddr) -> Result<Sockets, Fault> {
    let Ok(sockets) = Sockets::new(rt, address) else {
        return Err(Fault::Net);
    };
    if let Ok(address) = sockets.listener.local_addr() {
        tell_serving(rt, address);
    }
    Ok(sockets)
}

/// What responses get, so that pages of another site may read them.
fn allowed_by(rt: &HostRuntime, options: Options<'_>) -> Result<Option<Allowed>, Fault> {
    match options.allow_origin {
        Some(origin) => Ok(Some(granted(Allowed::of(rt.alloc(), origin.as_bytes()))?)),
        None => Ok(None),
    }
}

/// How a station is run, by what is asked for.
fn asked_of(rt: &HostRuntime, options: Options<'_>) -> Result<StationOptions, Fault> {
    let password = match options.password_file {
        Some(file) => Some(read_password(rt, file)?),
        None => None,
    };
    Ok(StationOptions {
        most: options.listeners as usize,
        skeletons: options.skeletons,
        password,
        ends_with_input: options.seal,
        log: options.log,
    })
}

/// A station over a hub, in which what an earlier run left open is ended.
fn station_over<D: Disk + Drop>(
    rt: &HostRuntime,
    hub: Hub<D>,
    options: StationOptions,
) -> Result<Station<D>, Fault> {
    match Station::new(rt.alloc(), hub, options) {
        Ok(station) => ended(station),
        Err(_) => Err(Fault::Memory),
    }
}

/// Ends what an earlier run left open. If the disk fails at that, the file is opened again by the first step, which ends
/// it then.
fn ended<D: Disk + Drop>(mut station: Station<D>) -> Result<Station<D>, Fault> {
    match station.end_open() {
        Ok(()) | Err(Refusal::Disk) => Ok(station),
        Err(_) => Err(Fault::Refused),
    }
}
